//! The queue that is picked for one pass.

ghost use Rattle.std.specs.Prelude.{◌≡◌, ◌<◌, ◌≤◌, ◌+◌, length, slice_index_or, true, IfOk};
ghost use Rattle.std.specs.List.{All};
ghost use Rattle.compile_queues.specs.Choice.{Costs, IsPick};
ghost use Rattle.compile_queues.specs.Internal.Best.{IsBestFor};
ghost use Rattle.compile_queues.specs.Internal.Work.{IsWork};
ghost use Rattle.compile_queues.specs.Cost.{IsFrameCost};
ghost use Rattle.compile_queues.specs.Queues.{on_queues, serves};
ghost use Rattle.frame.specs.Numbered.{numbered};
ghost use Rattle.frame_cull.specs.Versions.{pass_at};

use crate::cost::cost_on;
use crate::queues::serves;
use crate::work::Work;
use base::{List, NoMemory};
use frame::ValidFrame;
use std::alloc::Global;

/// A queue for a pass, and what the frame costs with the pass on it.
#[derive(Clone, Copy)]
pub(crate) struct Best {
    pub queue: u32,
    pub cost: u64,
}

// What the frame costs with one pass on another queue.
fn tried(
    alloc: Global,
    frame: &ValidFrame,
    work: &Work,
    queues: &[u32],
    pass: u32,
    queue: u32,
) -> Result<u64, NoMemory>
    requires work { IsWork (numbered frame.now) work.now }
    requires count { length queues.now ≡ length (numbered frame.now).passes }
    requires below { All (λ q. q < length (numbered frame.now).queues) queues.now }
    requires pass { pass < length queues.now }
    requires queue { queue < length (numbered frame.now).queues }
    ensures { IfOk result (Costs (numbered frame.now) queues.now pass queue) }
{
    let mut moved = List::from_slice(alloc, queues)?;
    moved.set(pass as usize, queue);
    cost_on(alloc, frame, work, &moved)
}

// The best queue, with one queue more looked at.
#[tactic(auto, using(crate::proofs::Trying::present_again, crate::proofs::Trying::not_run, crate::proofs::Trying::kept_best, crate::proofs::Trying::new_best))]
fn better(
    alloc: Global,
    frame: &ValidFrame,
    work: &Work,
    queues: &[u32],
    pass: u32,
    queue: u32,
    best: Best,
) -> Result<Best, NoMemory>
    requires work { IsWork (numbered frame.now) work.now }
    requires count { length queues.now ≡ length (numbered frame.now).passes }
    requires below { All (λ q. q < length (numbered frame.now).queues) queues.now }
    requires pass { pass < length queues.now }
    requires queue { queue < length (numbered frame.now).queues }
    requires best { IsBestFor (numbered frame.now) queues.now pass queue best.queue best.cost }
    ensures best { IfOk result (λ b. IsBestFor (numbered frame.now) queues.now pass (queue + 1) b.queue b.cost) }
    ensures less { IfOk result (λ b. b.cost ≤ best.cost) }
{
    if queue == queues[pass as usize] || !serves(frame, pass, queue) {
        return Ok(best);
    }
    let cost = tried(alloc, frame, work, queues, pass, queue)?;
    if cost < best.cost {
        Ok(Best { queue, cost })
    } else {
        Ok(best)
    }
}

/// The queue for a pass, where passes are on these queues at this cost: among those that run all its operations one with
/// the least cost of the whole frame, its present one before all others, then the least number.
#[tactic(auto, using(crate::proofs::Trying::first_best, crate::proofs::Trying::picked))]
pub(crate) fn pick(
    alloc: Global,
    frame: &ValidFrame,
    work: &Work,
    queues: &[u32],
    pass: u32,
    cost: u64,
) -> Result<Best, NoMemory>
    requires work { IsWork (numbered frame.now) work.now }
    requires count { length queues.now ≡ length (numbered frame.now).passes }
    requires below { All (λ q. q < length (numbered frame.now).queues) queues.now }
    requires pass { pass < length queues.now }
    requires runs { serves (numbered frame.now).queues (pass_at (numbered frame.now) pass) (slice_index_or queues.now pass 0) ≡ true }
    requires cost { IsFrameCost (on_queues queues.now (numbered frame.now)) cost }
    ensures pick { IfOk result (λ b. IsPick (numbered frame.now) queues.now pass b.queue) }
    ensures cost { IfOk result (λ b. Costs (numbered frame.now) queues.now pass b.queue b.cost) }
    ensures less { IfOk result (λ b. b.cost ≤ cost) }
{
    let mut best = Best {
        queue: queues[pass as usize],
        cost,
    };
    for queue in 0..frame.queue_count() {
        best = better(alloc, frame, work, queues, pass, queue, best)?;
    }
    Ok(best)
}
