//! What nodes stand for.

ghost use Rattle.std.specs.Prelude.{◌≡◌};
ghost use Rattle.std.specs.Option.{option_map};
ghost use Rattle.program.specs.Internal.Standing.{batch_entry, queued_entry, entry_at};
ghost use Rattle.program.specs.Entries.{seen};

use crate::nodes::NodeAt;
use crate::{Batch, Item, Program, Signal, WaitFor};

/// What a node stands for, with the number of its queue.
#[derive(Clone, Copy)]
pub enum Entry<'a> {
    Wait { queue: u32, wait: &'a WaitFor },
    Item { queue: u32, item: &'a Item },
    Signal { queue: u32, signal: &'a Signal },
    /// The host's read of the piece with the number.
    Host { piece: u32 },
}

fn batch_entry(location: NodeAt, batch: &Batch) -> Option<Entry<'_>>
    ensures { option_map seen result ≡ batch_entry location batch.now }
{
    match location {
        NodeAt::Wait { queue, at, .. } => match batch.waits.get(at as usize) {
            Some(wait) => Some(Entry::Wait { queue, wait }),
            None => None,
        },
        NodeAt::Item { queue, at, .. } => match batch.items.get(at as usize) {
            Some(item) => Some(Entry::Item { queue, item }),
            None => None,
        },
        NodeAt::Signal { queue, .. } => match &batch.signal {
            Some(signal) => Some(Entry::Signal { queue, signal }),
            None => None,
        },
        NodeAt::Host { .. } => None,
    }
}

fn queued_entry(program: &Program, location: NodeAt, queue: u32, batch: u32) -> Option<Entry<'_>>
    ensures { option_map seen result ≡ queued_entry program.now location queue batch }
{
    match program.queues.get(queue as usize) {
        Some(found) => match found.batches.get(batch as usize) {
            Some(batch) => batch_entry(location, batch),
            None => None,
        },
        None => None,
    }
}

/// What stands at the location, if anything does.
pub(crate) fn entry_at(program: &Program, location: NodeAt) -> Option<Entry<'_>>
    ensures { option_map seen result ≡ entry_at program.now location }
{
    match location {
        NodeAt::Wait { queue, batch, .. } => queued_entry(program, location, queue, batch),
        NodeAt::Item { queue, batch, .. } => queued_entry(program, location, queue, batch),
        NodeAt::Signal { queue, batch } => queued_entry(program, location, queue, batch),
        NodeAt::Host { readback } => match program.readbacks.get(readback as usize) {
            Some(piece) => Some(Entry::Host { piece: *piece }),
            None => None,
        },
    }
}
