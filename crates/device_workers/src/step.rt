//! One hold of a worker: one event, or none.

ghost use Rattle.std.specs.Prelude.{◌≡◌, true, IfOk, OnErr, IfSome, IfNone};
ghost use Rattle.device_model.specs.Devices.{is_ready, NeverStands};
ghost use Rattle.device_drive.specs.Firsts.{NothingReady};
ghost use Rattle.device_workers.specs.WorkerSteps.{IsChosen, Goes, WorkerSteps};

use base::NoMemory;
use check_order::Kind;
use device::{Device, Job};
use device_drive::{next_node, readback_of};
use device_model::event_laws;
use std::alloc::Global;

/// What a hold did.
pub enum WorkerStep {
    /// A command is begun, and is to be computed.
    Compute(Job),
    /// A barrier, a wait, a signal or a host read is done.
    Stepped,
    /// Every node is done.
    Complete,
    /// No node is ready, and not all are done.
    Wait,
}

/// One hold of the worker of a queue: the event of the least ready node of its own queue, or else of the first queue that has
/// one; host reads come last.
pub fn take_step(device: &mut Device, alloc: Global, own_queue: u32) -> Result<WorkerStep, NoMemory>
    ensures ok { IfOk result (WorkerSteps device.old device.new own_queue) }
    ensures err { OnErr result (device.new ≡ device.old) }
{
    match chosen(device, own_queue) {
        Some(node) => go(device, alloc, node),
        None => {
            if device.complete() {
                Ok(WorkerStep::Complete)
            } else {
                Ok(WorkerStep::Wait)
            }
        }
    }
}

// The node that a worker takes.
fn chosen(device: &Device, own_queue: u32) -> Option<u32>
    ensures some { IfSome result (IsChosen device.now own_queue) }
    ensures none { IfNone result (NothingReady device.now) }
    ensures stands { NeverStands device.now }
{
    device.pick(own_queue).or_else(|| next_node(device))
}

// The event of a ready node.
fn go(device: &mut Device, alloc: Global, node: u32) -> Result<WorkerStep, NoMemory>
    requires ready { is_ready device.old node ≡ true }
    ensures ok { IfOk result (Goes device.old device.new node) }
    ensures err { OnErr result (device.new ≡ device.old) }
{
    event_laws();
    match device.kind(node) {
        Kind::Command => return Ok(WorkerStep::Compute(device.begin(alloc, node)?)),
        Kind::Host => {
            let readback = readback_of(device, node);
            device.host(readback);
        }
        Kind::Barrier | Kind::Wait { .. } | Kind::Signal { .. } => device.sync(node),
    }
    Ok(WorkerStep::Stepped)
}
