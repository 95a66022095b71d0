//! One node after another.

ghost use Rattle.std.specs.Prelude.{◌≡◌, ◌<◌, [], ◌∷◌, length, true, IfSome, IfNone, OnOk};
ghost use Rattle.base.specs.declared.event.Event.TheVariants as events;
ghost use Rattle.device_drive.specs.Driven.{node_events};
ghost use Rattle.device_drive.specs.Internal.Keepers.{Advanced, Does, Keeps};
ghost use Rattle.device_drive.specs.Firsts.{IsFirst, NothingReady};
ghost use Rattle.check_order.specs.Edges.{is_host, is_sync};
ghost use Rattle.device_model.specs.Devices.{is_ready, NeverStands, NoneBegun};
ghost use Rattle.device_model.specs.Ready.{is_command, read_node};
ghost use Rattle.device_model.specs.Rounds.{MayGo, Round};

use crate::keeper::Keeper;
use base::NoMemory;
use check_order::Kind;
use device::{Device, Landed};
use device_model::device_laws;
use std::alloc::Global;
use std::thread::Threads;

/// The least ready node of the first queue that has one; host reads come after all queues.
pub fn next_node(device: &Device) -> Option<u32>
    ensures some { IfSome result (IsFirst device.now) }
    ensures none { IfNone result (NothingReady device.now) }
    ensures stands { NeverStands device.now }
{
    device_laws();
    let queues = device.program().program().queues.len() as u32;
    for queue in 0..queues + 1 {
        if let Some(node) = device.pick(queue) {
            return Some(node);
        }
    }
    None
}

// A command begins, is computed and ends.
fn run_command<R: Threads + Sync>(
    rt: &R,
    alloc: Global,
    device: &mut Device,
    keeper: &mut Keeper,
    node: u32,
) -> Result<(), NoMemory>
    requires keeps { Keeps keeper.old device.old.program }
    requires idle { NoneBegun device.old }
    requires may { MayGo is_command device.old node }
    ensures advanced { Advanced device.old device.new keeper.old keeper.new }
    ensures does { OnOk result (Does (events.Begin node ∷ events.End node ∷ []) device.old device.new keeper.old keeper.new) }
    ensures round { OnOk result (Round device.old device.new) }
{
    keeper.tend(device);
    let job = device.begin(alloc, node)?;
    let done = job.compute(rt);
    keeper.tend(device);
    match device.end(done) {
        Landed::Done => Ok(()),
        Landed::NotBegun => unreachable!(),
    }
}

// A barrier, wait or signal takes effect.
fn run_sync(device: &mut Device, keeper: &mut Keeper, node: u32)
    requires keeps { Keeps keeper.old device.old.program }
    requires idle { NoneBegun device.old }
    requires may { MayGo is_sync device.old node }
    ensures advanced { Advanced device.old device.new keeper.old keeper.new }
    ensures does { Does (events.Sync node ∷ []) device.old device.new keeper.old keeper.new }
    ensures round { Round device.old device.new }
{
    keeper.tend(device);
    device.sync(node);
}

/// The number of the read-back of a ready host read.
pub fn readback_of(device: &Device, node: u32) -> u32
    requires { MayGo is_host device.now node }
    ensures there { result < length device.now.program.readbacks }
    ensures read { read_node device.now.program result ≡ node }
{
    let program = device.program();
    let queues = program.program().queues.len() as u32;
    let first = program.first_node(queues);
    node - first
}

// The host reads.
fn run_host(device: &mut Device, keeper: &mut Keeper, node: u32)
    requires keeps { Keeps keeper.old device.old.program }
    requires idle { NoneBegun device.old }
    requires may { MayGo is_host device.old node }
    ensures advanced { Advanced device.old device.new keeper.old keeper.new }
    ensures does { Does (events.Host node ∷ []) device.old device.new keeper.old keeper.new }
    ensures round { Round device.old device.new }
{
    keeper.tend(device);
    let readback = readback_of(device, node);
    device.host(readback);
}

/// All events of a ready node, each after a cache move.
pub(crate) fn run_node<R: Threads + Sync>(
    rt: &R,
    alloc: Global,
    device: &mut Device,
    keeper: &mut Keeper,
    node: u32,
) -> Result<(), NoMemory>
    requires keeps { Keeps keeper.old device.old.program }
    requires idle { NoneBegun device.old }
    requires ready { is_ready device.old node ≡ true }
    ensures advanced { Advanced device.old device.new keeper.old keeper.new }
    ensures does { OnOk result (Does (node_events device.old node) device.old device.new keeper.old keeper.new) }
    ensures round { OnOk result (Round device.old device.new) }
{
    match device.kind(node) {
        Kind::Command => run_command(rt, alloc, device, keeper, node)?,
        Kind::Host => run_host(device, keeper, node),
        Kind::Barrier | Kind::Wait { .. } | Kind::Signal { .. } => run_sync(device, keeper, node),
    }
    Ok(())
}
