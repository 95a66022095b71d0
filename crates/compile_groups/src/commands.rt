//! The commands of a frame.

ghost use Rattle.std.specs.Prelude.{◌≡◌, ◌<◌, ◌≤◌, ◌++◌, length, map, IfOk, OnOk};
ghost use Rattle.std.specs.List.{All};
ghost use Rattle.frame.specs.Numbered.{numbered};
ghost use Rattle.compile_groups.specs.Internal.Grown.{kept_pass};
ghost use Rattle.compile_groups.specs.Internal.Known.{AreKnown};
ghost use Rattle.compile_groups.specs.Commands.{on_queue, kept_commands, copy_out, export_queue, export_command, export_commands, commands};
ghost use Rattle.frame_cull.specs.Versions.{numbers_of};

use crate::Command;
use base::{List, NoMemory, Op, Shape, shape_at};
use frame::ValidFrame;
use frame_cull::{Kept, Versions};
use std::alloc::Global;

// The operations of a pass, on its queue.
fn push_pass(
    alloc: Global,
    list: &mut List<Command>,
    queue: u32,
    ops: &[Op<u32>],
) -> Result<(), NoMemory>
    ensures { OnOk result (list.new ≡ list.old ++ map (on_queue queue) ops.now) }
{
    for op in ops {
        list.push(Command {
            queue,
            op: op.copy(alloc)?,
            export: None,
        })?;
    }
    Ok(())
}

// Those of a pass, if it is kept.
#[tactic(auto, using(crate::proofs::Growing::pass_read, crate::proofs::Growing::pass_left))]
fn push_kept(
    alloc: Global,
    list: &mut List<Command>,
    frame: &ValidFrame,
    kept: &Kept,
    pass: u32,
) -> Result<(), NoMemory>
    requires pass { pass < length (numbered frame.now).passes }
    requires kept { pass < length kept.now }
    ensures { OnOk result (list.new ≡ list.old ++ kept_pass (numbered frame.now).passes kept.now pass) }
{
    if kept.contains(pass) {
        push_pass(alloc, list, frame.queue_of(pass), frame.ops(pass))?;
    }
    Ok(())
}

// Those of the passes that are kept.
#[tactic(auto, using(crate::proofs::Growing::pass_more))]
fn kept_commands(alloc: Global, frame: &ValidFrame, kept: &Kept) -> Result<List<Command>, NoMemory>
    requires { length kept.now ≡ length (numbered frame.now).passes }
    ensures { IfOk result (λ list. list ≡ kept_commands (numbered frame.now).passes kept.now) }
{
    let mut list = List::new(alloc);
    for pass in 0..frame.pass_count() {
        push_kept(alloc, &mut list, frame, kept, pass)?;
    }
    Ok(list)
}

// All bytes of a unit of this shape go into a buffer of their number.
fn copy_out(shape: Shape, src: u32, dst: u32) -> Op<u32>
    ensures { result ≡ copy_out shape src dst }
{
    match shape {
        Shape::Buffer { size } => Op::CopyBuffer {
            src,
            dst,
            src_offset: 0,
            dst_offset: 0,
            size,
        },
        Shape::Image { .. } => Op::ImageToBuffer {
            src,
            dst,
            offset: 0,
        },
    }
}

fn export_queue(frame: &ValidFrame, versions: &Versions, unit: u32) -> u32
    requires versions { versions.now ≡ numbers_of (numbered frame.now) }
    requires unit { unit < length (numbered frame.now).units }
    ensures { result ≡ export_queue (numbered frame.now) unit }
{
    match versions.last_writer(unit) {
        Some(pass) => frame.queue_of(pass),
        None => 0,
    }
}

fn export_command(frame: &ValidFrame, versions: &Versions, k: u32, unit: u32) -> Command
    requires versions { versions.now ≡ numbers_of (numbered frame.now) }
    requires few { k < 32 }
    requires unit { unit < length (numbered frame.now).units }
    ensures { result ≡ export_command (numbered frame.now) k unit }
{
    let shape = shape_at(frame.shapes(), unit);
    Command {
        queue: export_queue(frame, versions, unit),
        op: copy_out(shape, unit, frame.unit_count() + k),
        export: Some(k),
    }
}

// A copy of each of these exports.
fn push_exports(
    list: &mut List<Command>,
    frame: &ValidFrame,
    versions: &Versions,
    exports: &[u32],
) -> Result<(), NoMemory>
    requires versions { versions.now ≡ numbers_of (numbered frame.now) }
    requires few { length exports.now ≤ 32 }
    requires within { All (λ unit. unit < length (numbered frame.now).units) exports.now }
    ensures { OnOk result (list.new ≡ list.old ++ export_commands (numbered frame.now) 0 exports.now) }
{
    for (k, unit) in exports.iter().enumerate() {
        list.push(export_command(frame, versions, k as u32, *unit))?;
    }
    Ok(())
}

/// The operations of the passes that are kept, and a copy of each export.
pub(crate) fn commands_of(
    alloc: Global,
    frame: &ValidFrame,
    versions: &Versions,
    kept: &Kept,
) -> Result<List<Command>, NoMemory>
    requires versions { versions.now ≡ numbers_of (numbered frame.now) }
    requires kept { length kept.now ≡ length (numbered frame.now).passes }
    ensures commands { IfOk result (λ list. list ≡ commands (numbered frame.now) kept.now) }
    ensures known { IfOk result (λ list. AreKnown (numbered frame.now) list) }
{
    let exports = frame.exports();
    let mut list = kept_commands(alloc, frame, kept)?;
    push_exports(&mut list, frame, versions, exports)?;
    Ok(list)
}
