//! The loop of a worker.

ghost use Rattle.std.specs.Prelude.{OnOk};
ghost use Rattle.device_workers.specs.Holds.{Both, EndsComplete, LeavesNone, WorksTo};
ghost use Rattle.device_workers.specs.Parts.{FindsEnd, KeepsParts};

use crate::hold::Holder;
use crate::step::WorkerStep;
use base::NoMemory;
use base_io::Gate;
use device_model::round_laws;
use std::alloc::Global;
use std::sync::Wait;
use std::thread::Threads;

/// Works until a hold finds the device complete, or memory runs out. A command is computed between two holds, in which it begins
/// and ends.
pub fn work_through<R: Threads + Wait + Sync, H: Holder, G: Gate>(
    rt: &R,
    alloc: Global,
    hold: &mut H,
    own_queue: u32,
    gate: &G,
) -> Result<(), NoMemory>
    ensures works { WorksTo (H.told hold.old) (H.told hold.new) own_queue }
    ensures complete { OnOk result (EndsComplete (H.told hold.old) (H.told hold.new)) }
    ensures nothing { LeavesNone (H.told hold.old) (H.told hold.new) }
    ensures found { OnOk result (Both (H.part hold.old) (H.part hold.new) FindsEnd) }
    ensures parts { Both (H.part hold.old) (H.part hold.new) KeepsParts }
{
    round_laws();
    for _ in rt.forever() {
        match hold.step(alloc, own_queue)? {
            WorkerStep::Compute(job) => {
                let node = job.command().node;
                gate.enter(node);
                let done = job.compute(rt);
                gate.leave(node);
                let _landed = hold.land(done);
            }
            WorkerStep::Complete => return Ok(()),
            WorkerStep::Stepped | WorkerStep::Wait => {}
        }
    }
    unreachable!()
}
