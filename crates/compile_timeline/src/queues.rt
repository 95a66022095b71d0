//! The queues that a list of steps is cut into.

ghost use Rattle.std.specs.Prelude.{◌≡◌, ◌+◌, ◌<◌, ◌≤◌, length, IfOk, OnOk};
ghost use Rattle.base.specs.Maxima.{max_queues};
ghost use Rattle.compile_timeline.specs.Batches.{cut, queues};
ghost use Rattle.compile_timeline.specs.Internal.Counts.{signals_of};
ghost use Rattle.compile_timeline.specs.Internal.Submissions.{Adds, ClosedAt};
ghost use Rattle.compile_timeline.specs.Internal.Walks.{Knows};
ghost use Rattle.compile_timeline.specs.Parts.{parts_at, parts};
ghost use Rattle.compile_timeline.specs.Steps.{IsScript};

use crate::Step;
use crate::needs::Needs;
use crate::signals::{Signals, signals_of};
use crate::submission::Submission;
use base::{Family, List, NoMemory};
use program::{Batch, Queue};
use std::alloc::Global;

// Adds what the queue has of one step.
fn submit_step(
    alloc: Global,
    submission: &mut Submission,
    needs: &Needs,
    signals: &Signals,
    script: &[Step],
    queue: u32,
    at: usize,
    count: u32,
) -> Result<(), NoMemory>
    requires at { at < length script.now }
    requires knows { Knows script.now queue at needs.now }
    requires count { count ≡ length needs.now.latest }
    requires signals { signals.now ≡ signals_of script.now count }
    requires closed { ClosedAt script.now count queue at submission.old }
    ensures added { OnOk result (Adds submission.old submission.new (parts_at script.now count queue at)) }
    ensures closed { OnOk result (ClosedAt script.now count queue (at + 1) submission.new) }
{
    match &script[at] {
        Step::Item { queue: own, item } if *own == queue => {
            submission.submit(alloc, needs, signals, at, item, count)
        }
        _ => Ok(()),
    }
}

// The batches of one queue.
fn batches_of(
    alloc: Global,
    script: &[Step],
    signals: &Signals,
    queue: u32,
    count: u32,
) -> Result<List<Batch>, NoMemory>
    requires script { IsScript script.now count }
    requires signals { signals.now ≡ signals_of script.now count }
    ensures { IfOk result (λ batches. batches ≡ cut (parts script.now count queue)) }
{
    let mut needs = Needs::new(alloc, script, queue, count)?;
    let mut submission = Submission::new(alloc);
    for at in 0..script.len() {
        submit_step(
            alloc,
            &mut submission,
            &needs,
            signals,
            script,
            queue,
            at,
            count,
        )?;
        needs.pass(script, queue, at);
    }
    Ok(submission.into_batches())
}

/// The queues of these families, whose batches do what the steps say. Before an item stands a wait for the latest step
/// of each other queue that it needs, unless its queue waited for that step or a later one before. A signal stands after
/// each step that a wait is for, and at the end of each queue that does something.
pub fn batches(alloc: Global, script: &[Step], families: &[Family]) -> Result<List<Queue>, NoMemory>
    requires few { length families.now ≤ max_queues }
    requires script { IsScript script.now (length families.now) }
    ensures { IfOk result (λ list. list ≡ queues script.now families.now) }
{
    let count = families.len() as u32;
    let signals = signals_of(alloc, script, count)?;
    let mut queues = List::new(alloc);
    for queue in 0..count {
        queues.push(Queue {
            family: families[queue as usize],
            batches: batches_of(alloc, script, &signals, queue, count)?,
        })?;
    }
    Ok(queues)
}
