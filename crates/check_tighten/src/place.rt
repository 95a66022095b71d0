//! Where a wait stands.

ghost use Rattle.std.specs.Prelude.{◌≡◌, ◌==◌, IfOk, MatchOption, length, slice_get, Some};
ghost use Rattle.vk.specs.Sets.{has};
ghost use Rattle.check_tighten.specs.Internal.Rounds.{HasWait, StandsAt};
ghost use Rattle.check_tighten.specs.Own.{own_stages};
ghost use Rattle.check_tighten.specs.Tightened.{batches_at, waits_at};
ghost use Rattle.program.specs.Obeys.{BatchAt};
ghost use Rattle.program.specs.declared.program.Batch.{Batch};
ghost use Rattle.program.specs.declared.program.Queue.{Queue};
ghost use Rattle.program.specs.declared.program.WaitFor as waits;

use crate::own::own_stages;
use base::{Family, List, NoMemory};
use bitflags::Flags;
use program::{Batch, Program, WaitFor};
use std::alloc::Global;
use vk::Stages;

/// The numbers of a queue, a batch of it, and a wait of that.
#[derive(Clone, Copy)]
pub struct Place {
    pub queue: usize,
    pub batch: usize,
    pub at: usize,
}

/// A wait, and the family of its queue.
#[derive(Clone, Copy)]
pub struct Standing {
    pub family: Family,
    pub wait: WaitFor,
}

impl Standing {
    /// Whether a stage is one of the wait's own.
    pub fn has_own(self, stage: Stages) -> bool
        ensures { result ≡ has (own_stages self.family self.wait.stages.0) stage.0 }
    {
        own_stages(self.family, self.wait.stages).contains(stage)
    }

    /// Whether the wait has its own stages alone.
    pub fn is_fitted(self) -> bool
        ensures { result ≡ (self.wait.stages.0 == own_stages self.family self.wait.stages.0) }
    {
        let own = own_stages(self.family, self.wait.stages);
        self.wait.stages.0 == own.0
    }
}

fn standing_in(family: Family, batch: &Batch, at: usize) -> Option<Standing>
    ensures { MatchOption result ((wait : waits.WaitFor) → slice_get batch.now.waits at ≡ Some wait → ⊥) (λ found. (slice_get batch.now.waits at ≡ Some found.wait) × (found.family ≡ family)) }
{
    match batch.waits.get(at) {
        Some(wait) => Some(Standing {
            family,
            wait: *wait,
        }),
        None => None,
    }
}

/// The wait at a place, if there is one.
pub fn wait_at(program: &Program, place: Place) -> Option<Standing>
    ensures { MatchOption result (HasWait program.now place.queue place.batch place.at → ⊥) (λ found. StandsAt program.now place.queue place.batch place.at found.family found.wait) }
{
    match program.queues.get(place.queue) {
        Some(queue) => match queue.batches.get(place.batch) {
            Some(batch) => standing_in(queue.family, batch, place.at),
            None => None,
        },
        None => None,
    }
}

/// A copy of the waits of a batch; none, if there is no such batch.
pub fn waits_at(
    alloc: Global,
    program: &Program,
    queue: usize,
    batch: usize,
) -> Result<List<WaitFor>, NoMemory>
    ensures { IfOk result (λ waits. (own : Queue) (found : Batch) → BatchAt program.now queue batch own found → waits ≡ found.waits) }
{
    match program.queues.get(queue) {
        Some(queue) => match queue.batches.get(batch) {
            Some(batch) => batch.waits.copy(alloc),
            None => Ok(List::new(alloc)),
        },
        None => Ok(List::new(alloc)),
    }
}

/// How many batches a queue has; none, if there is no such queue.
pub fn batch_count(program: &Program, queue: usize) -> usize
    ensures { result ≡ length (batches_at program.now queue) }
{
    match program.queues.get(queue) {
        Some(queue) => queue.batches.len(),
        None => 0,
    }
}

/// How many waits a batch has; none, if there is no such batch.
pub fn wait_count(program: &Program, queue: usize, batch: usize) -> usize
    ensures { result ≡ length (waits_at program.now queue batch) }
{
    match program.queues.get(queue) {
        Some(queue) => match queue.batches.get(batch) {
            Some(batch) => batch.waits.len(),
            None => 0,
        },
        None => 0,
    }
}
