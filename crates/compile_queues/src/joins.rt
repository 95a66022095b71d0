//! Which uses are of one group, where the commands are on other queues.

ghost use Rattle.std.specs.Prelude.{◌≡◌, slice_index_or};
ghost use Rattle.compile_queues.specs.Internal.Spans.{joined, moved};

use base::Family;
use compile_groups::{Use, joins};
use vk::Sharing;

fn queue_at(queues: &[u32], command: u32) -> u32
    ensures { result ≡ slice_index_or queues.now command 0 }
{
    match queues.get(command as usize) {
        Some(queue) => *queue,
        None => 0,
    }
}

fn moved(queues: &[u32], one: Use) -> Use
    ensures { result ≡ moved queues.now one }
{
    Use {
        queue: queue_at(queues, one.command),
        ..one
    }
}

/// Whether a use goes into the group of the one right before it.
pub(crate) fn joined(
    families: &[Family],
    sharings: &[Sharing],
    queues: &[u32],
    one: Use,
    next: Use,
) -> bool
    ensures { result ≡ joined families.now sharings.now queues.now one next }
{
    one.unit == next.unit && joins(families, sharings, moved(queues, one), moved(queues, next))
}
