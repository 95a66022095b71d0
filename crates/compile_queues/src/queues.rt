//! Passes and their queues.

ghost use Rattle.std.specs.Prelude.{◌≡◌, ◌<◌, length, map, slice_get, unwrap_or, IfOk};
ghost use Rattle.std.specs.List.{All, list_all};
ghost use Rattle.compile_queues.specs.Queues.{queues_of, serves};
ghost use Rattle.compile_queues.specs.Renamed.{frame_on, passes_on, queue_name};
ghost use Rattle.base.specs.Runs.{runs};
ghost use Rattle.frame.specs.Numbered.{numbered};
ghost use Rattle.frame_cull.specs.Versions.{pass_at};

use base::{Family, List, Name, NoMemory, Op, op_runs};
use frame::{Frame, Pass, QueueDecl, ValidFrame};
use std::alloc::Global;

fn all_run(ops: &[Op<u32>], family: Family) -> bool
    ensures { result ≡ list_all (λ op. runs op family) ops.now }
{
    ops.iter().all(|op| op_runs(op, family))
}

/// Whether all operations of a pass run on a queue.
#[tactic(auto, using(crate::proofs::Walking::serves_is))]
pub(crate) fn serves(frame: &ValidFrame, pass: u32, queue: u32) -> bool
    requires pass { pass < length (numbered frame.now).passes }
    requires queue { queue < length (numbered frame.now).queues }
    ensures { result ≡ serves (numbered frame.now).queues (pass_at (numbered frame.now) pass) queue }
{
    all_run(frame.ops(pass), frame.family(queue))
}

/// The queue of each pass.
#[tactic(auto, using(crate::proofs::Walking::queue_more, crate::proofs::Walking::queue_all))]
pub(crate) fn queues_of(alloc: Global, frame: &ValidFrame) -> Result<List<u32>, NoMemory>
    ensures { IfOk result (λ queues. queues ≡ queues_of (numbered frame.now)) }
{
    let mut queues = List::new(alloc);
    for pass in 0..frame.pass_count() {
        queues.push(frame.queue_of(pass))?;
    }
    Ok(queues)
}

#[tactic(auto, using(crate::proofs::Walking::name_is))]
fn names_of(alloc: Global, frame: &Frame, queues: &[u32]) -> Result<List<Name>, NoMemory>
    requires { All (λ q. q < length frame.now.queues) queues.now }
    ensures { IfOk result (λ names. names ≡ map (queue_name frame.now) queues.now) }
{
    let mut names = List::new(alloc);
    for queue in queues {
        names.push(frame.queues[*queue as usize].name)?;
    }
    Ok(names)
}

fn moved_to(pass: Pass, queue: Name) -> Pass
    ensures { result ≡ record pass { queue = queue } }
{
    let Pass {
        name,
        queue: _,
        reads,
        writes,
        ops,
        side_effect,
    } = pass;
    Pass {
        name,
        queue,
        reads,
        writes,
        ops,
        side_effect,
    }
}

// The name with a number; without one, the pass keeps its own.
fn name_for(names: &[Name], p: usize, own: Name) -> Name
    ensures { result ≡ unwrap_or (slice_get names.now p) own }
{
    match names.get(p) {
        Some(name) => *name,
        None => own,
    }
}

fn passes_on(alloc: Global, names: &[Name], passes: List<Pass>) -> Result<List<Pass>, NoMemory>
    requires { length names.now ≡ length passes }
    ensures { IfOk result (λ list. list ≡ passes_on names.now passes) }
{
    let mut list = List::new(alloc);
    let mut p = 0;
    for pass in passes.into_vec() {
        let name = name_for(names, p, pass.queue);
        list.push(moved_to(pass, name))?;
        p += 1;
    }
    Ok(list)
}

/// The frame with its passes on these queues.
pub(crate) fn frame_on(alloc: Global, frame: &Frame, queues: &[u32]) -> Result<Frame, NoMemory>
    requires below { All (λ q. q < length frame.now.queues) queues.now }
    requires count { length queues.now ≡ length frame.now.passes }
    ensures { IfOk result (λ moved. moved ≡ frame_on queues.now frame.now) }
{
    let names = names_of(alloc, frame, queues)?;
    let Frame {
        queues,
        resources,
        passes,
        exports,
    } = frame.copy(alloc)?;
    Ok(Frame {
        queues,
        resources,
        passes: passes_on(alloc, &names, passes)?,
        exports,
    })
}
