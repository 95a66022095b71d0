//! Programs with other waits at one batch.

ghost use Rattle.std.specs.Prelude.{◌≡◌, ◌<◌, length, IfOk};
ghost use Rattle.check_tighten.specs.Edits.{batch_with, queue_with, changed_at, program_with, without_at};

use base::{Family, List, NoMemory};
use program::{Batch, Program, Queue, WaitFor};
use std::alloc::Global;
use std::mem;

fn batches_with(batches: List<Batch>, b: usize, waits: List<WaitFor>) -> List<Batch>
    requires { b < length batches }
    ensures { result ≡ changed_at (batch_with waits) b batches }
{
    let mut batches = batches.into_vec();
    batches[b].waits = waits;
    List::from_vec(batches)
}

fn queue_with(queue: Queue, b: usize, waits: List<WaitFor>) -> Queue
    ensures { result ≡ queue_with b waits queue }
{
    let Queue { family, batches } = queue;
    if b < batches.len() {
        Queue {
            family,
            batches: batches_with(batches, b, waits),
        }
    } else {
        Queue { family, batches }
    }
}

// An empty queue takes the queue's place meanwhile.
fn queue_changed(
    alloc: Global,
    queues: List<Queue>,
    q: usize,
    b: usize,
    waits: List<WaitFor>,
) -> List<Queue>
    requires { q < length queues }
    ensures { result ≡ changed_at (queue_with b waits) q queues }
{
    let mut queues = queues.into_vec();
    let empty = Queue {
        family: Family::Graphics,
        batches: List::new(alloc),
    };
    let queue = mem::replace(&mut queues[q], empty);
    queues[q] = queue_with(queue, b, waits);
    List::from_vec(queues)
}

fn queues_with(
    alloc: Global,
    queues: List<Queue>,
    q: usize,
    b: usize,
    waits: List<WaitFor>,
) -> List<Queue>
    ensures { result ≡ changed_at (queue_with b waits) q queues }
{
    if q < queues.len() {
        queue_changed(alloc, queues, q, b, waits)
    } else {
        queues
    }
}

/// The program with other waits at a batch, or as it was if there is no such batch. It takes no memory.
pub fn program_with(
    alloc: Global,
    program: Program,
    q: usize,
    b: usize,
    waits: List<WaitFor>,
) -> Program
    ensures { result ≡ program_with q b waits program }
{
    let Program {
        memories,
        pieces,
        queues,
        readbacks,
    } = program;
    Program {
        memories,
        pieces,
        queues: queues_with(alloc, queues, q, b, waits),
        readbacks,
    }
}

/// The waits without one of them.
pub fn without_wait(alloc: Global, waits: &[WaitFor], at: usize) -> Result<List<WaitFor>, NoMemory>
    requires { at < length waits.now }
    ensures { IfOk result (λ left. left ≡ without_at at waits.now) }
{
    let mut left = List::from_slice(alloc, &waits[..at])?;
    left.extend_from_slice(&waits[at + 1..])?;
    Ok(left)
}
