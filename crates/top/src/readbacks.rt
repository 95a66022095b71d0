//! What the host has read of a device, and what the device did.

ghost use Rattle.std.specs.Prelude.{◌≡◌, ◌++◌, length, IfOk, OnOk};
ghost use Rattle.frame.specs.Numbered.{numbered};
ghost use Rattle.report.specs.KeptLines.{run_text};
ghost use Rattle.device_model.specs.Devices.{IsComplete};
ghost use Rattle.device_run.specs.Runs.{read_by};
ghost use Rattle.compile_file.specs.Exports.{exports_text};
ghost use Rattle.top.specs.Texts.{readbacks_text, traced};

use base::{List, NoMemory, Text};
use device::Device;
use device_run::bytes_of;
use frame::ValidFrame;
use frame_cull::Kept;
use report::{export_text, readback_text, run_text, trace_text};
use std::alloc::Global;

/// The read-backs of a device that has run to its end, one after another.
pub fn add_readbacks(text: &mut Text, device: &Device) -> Result<(), NoMemory>
    requires { IsComplete device.now }
    ensures { OnOk result (text.new ≡ text.old ++ readbacks_text (read_by device.now) (length device.now.program.readbacks)) }
{
    let count = device.program().program().readbacks.len() as u32;
    for k in 0..count {
        readback_text(text, k, bytes_of(device, k))?;
    }
    Ok(())
}

fn add_exports(text: &mut Text, good: &ValidFrame, device: &Device) -> Result<(), NoMemory>
    requires complete { IsComplete device.now }
    requires one_each { length device.now.program.readbacks ≡ length (numbered good.now).exports }
    ensures { OnOk result (text.new ≡ text.old ++ exports_text good.now (read_by device.now)) }
{
    let count = good.exports().len() as u32;
    for k in 0..count {
        export_text(text, good, k, bytes_of(device, k))?;
    }
    Ok(())
}

fn add_trace(alloc: Global, text: &mut Text, device: &Device, trace: bool) -> Result<(), NoMemory>
    ensures { OnOk result (text.new ≡ text.old ++ traced trace device.now.history) }
{
    if trace {
        let lines = trace_text(alloc, device.history())?;
        text.extend_from_slice(lines.as_slice())?;
    }
    Ok(())
}

/// The read-backs of a device that has run to its end, and its history where it is asked for.
pub fn exec_text(alloc: Global, device: &Device, trace: bool) -> Result<Text, NoMemory>
    requires { IsComplete device.now }
    ensures { IfOk result (λ text. text ≡ readbacks_text (read_by device.now) (length device.now.program.readbacks) ++ traced trace device.now.history) }
{
    let mut text = List::new(alloc);
    add_readbacks(&mut text, device)?;
    add_trace(alloc, &mut text, device, trace)?;
    Ok(text)
}

/// The culled passes of a frame, its exports with the read-backs of such a device, and its history where it is asked for.
pub fn frame_text(
    alloc: Global,
    good: &ValidFrame,
    kept: &Kept,
    device: &Device,
    trace: bool,
) -> Result<Text, NoMemory>
    requires kept { length kept.now ≡ length good.now.passes }
    requires complete { IsComplete device.now }
    requires one_each { length device.now.program.readbacks ≡ length (numbered good.now).exports }
    ensures { IfOk result (λ text. text ≡ run_text good.now kept.now ++ (exports_text good.now (read_by device.now) ++ traced trace device.now.history)) }
{
    let mut text = run_text(alloc, good, kept)?;
    add_exports(&mut text, good, device)?;
    add_trace(alloc, &mut text, device, trace)?;
    Ok(text)
}
