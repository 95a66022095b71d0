//! A sound program runs on a device.

ghost use Rattle.std.specs.Prelude.{◌≡◌, ◌↔◌, IfOk, IsTrue};
ghost use Rattle.check_program.specs.Sound.{IsSound};
ghost use Rattle.device_model.specs.Devices.{Device, IsComplete};
ghost use Rattle.device_model.specs.Runs.{Runs};
ghost use Rattle.device_run.specs.EveryRun.{InEveryRun};
ghost use Rattle.device_run.specs.Runs.{HasRun, read_by};

use crate::ran::RanDevice;
use base::{NoMemory, RunOptions};
use base_io::Gate;
use check_program::Checked;
use device::Device;
use device_drive::{drive, tended};
use device_model::{device_laws, event_laws};
use device_workers::{moves_of, run_workers};
use std::alloc::Global;
use std::sync::Wait;
use std::thread::Threads;

// The laws of devices that run the program.
fn run_laws(program: &Checked)
    ensures runs { (d : Device) → d.program ≡ program.now.program → Runs d }
    ensures every { (d : Device) → d.program ≡ program.now.program → IsComplete d → IsSound program.now.program → InEveryRun program.now.program (read_by d) }
{
    device_laws();
    let _faultless = program.shaped().program();
}

// Whether the device is one of the program that has run to its end, with the cache moves of the seed.
fn has_run(
    alloc: Global,
    program: &Checked,
    device: &Device,
    tend: Option<u64>,
) -> Result<bool, NoMemory>
    ensures { IfOk result (λ has. IsTrue has ↔ HasRun program.now.program tend device.now) }
{
    if !device.belongs(program, 0) {
        return Ok(false);
    }
    if !device.complete() {
        return Ok(false);
    }
    run_laws(program);
    let _came = device.history();
    tended(alloc, program, device, tend)
}

// A device that is driven by itself, each command computed by this thread alone.
fn driven<R: Threads + Sync>(
    rt: &R,
    alloc: Global,
    program: &Checked,
    tend: Option<u64>,
) -> Result<RanDevice, NoMemory>
    ensures { IfOk result (HasRun program.now.program tend) }
{
    run_laws(program);
    event_laws();
    let mut device = Device::new(alloc, program, 0, moves_of(tend))?;
    drive(rt, alloc, &mut device, tend)?;
    let _came = device.history();
    Ok(RanDevice::new(device))
}

/// A device that has run the program, with the cache moves of the seed: this one where it has, which is looked at, or else another
/// one, which is driven.
pub fn chosen<R: Threads + Sync>(
    rt: &R,
    alloc: Global,
    program: &Checked,
    device: Device,
    tend: Option<u64>,
) -> Result<RanDevice, NoMemory>
    ensures run { IfOk result (HasRun program.now.program tend) }
    ensures same { HasRun program.now.program tend device → IfOk result (λ ran. ran ≡ device) }
{
    if has_run(alloc, program, &device, tend)? {
        return Ok(RanDevice::new(device));
    }
    driven(rt, alloc, program, tend)
}

/// A device that has run the program: that of the workers where it has, or else another one (`chosen`). Where there is a worker,
/// theirs always has.
pub fn run_program<R: Threads + Wait + Sync, G: Gate + Sync>(
    rt: &R,
    alloc: Global,
    program: &Checked,
    options: RunOptions,
    gate: &G,
) -> Result<RanDevice, NoMemory>
    ensures { IfOk result (HasRun program.now.program options.tend) }
{
    let device = run_workers(rt, alloc, program, options.workers, options.tend, gate)?;
    chosen(rt, alloc, program, device, options.tend)
}
