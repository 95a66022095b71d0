//! The limits of a program.

ghost use Rattle.std.specs.Prelude.{◌≡◌, ◌+◌, ◌<◌, ◌≤◌, not, nat_le, IfSome, IfNone, length, take};
ghost use Rattle.std.specs.List.{position};
ghost use Rattle.base.specs.Bounds.{sides_allowed, size_allowed};
ghost use Rattle.program.specs.Internal.Counts.{batch_count, batches_count, queues_count};
ghost use Rattle.program.specs.Limits.{over, memory_bytes, rects_of, spend_item, spend_batch, spend_queue, rects_over, count_broken, size_broken, limit_broken};
ghost use Rattle.base.specs.Maxima.{max_memory_bytes, max_nodes};
ghost use Rattle.base.specs.Rooms.{first_over};
ghost use Rattle.base.specs.Operands.{rect_count};
ghost use Rattle.program.specs.Entries.{entries_of};

use crate::location::Location;
use crate::range::memory_bytes;
use crate::rule::Rule;
use crate::{Batch, Item, Memory, Piece, Program, Queue};
use base::{
    Broken, Limit, MAX_MEMORIES, MAX_MEMORY_BYTES, MAX_NODES, MAX_PIECES, MAX_QUEUES,
    MAX_READBACKS, MAX_RECTS, first_over, spend_in,
};

fn over(limit: Limit, location: Location) -> Broken<Rule, Location>
    ensures { result ≡ over limit location }
{
    Broken::over_limit(Rule::Limits, limit, location)
}

fn wrong_sides(pieces: &[Piece]) -> Option<usize>
    ensures { result ≡ position (λ piece. not (sides_allowed piece.shape)) pieces.now }
{
    pieces.iter().position(|piece| !piece.shape.sides_allowed())
}

fn wrong_size(pieces: &[Piece]) -> Option<usize>
    ensures { result ≡ position (λ piece. not (size_allowed piece.shape)) pieces.now }
{
    pieces.iter().position(|piece| !piece.shape.size_allowed())
}

fn rects_of(item: &Item) -> usize
    ensures { result ≡ rects_of item.now }
{
    match item {
        Item::Command(op) => op.rect_count(),
        _ => 0,
    }
}

fn spend_item(q: usize, b: usize, room: usize, k: usize, item: &Item) -> Result<usize, Location>
    ensures { result ≡ spend_item q b room k item.now }
{
    let count = rects_of(item);
    if room < count {
        Err(Location::Item(q, b, k))
    } else {
        Ok(room - count)
    }
}

fn spend_batch(q: usize, room: usize, b: usize, batch: &Batch) -> Result<usize, Location>
    ensures { result ≡ spend_batch q room b batch.now }
{
    spend_in(&batch.items, room, |left, k, item| {
        spend_item(q, b, left, k, item)
    })
}

fn spend_queue(room: usize, q: usize, queue: &Queue) -> Result<usize, Location>
    ensures { result ≡ spend_queue room q queue.now }
{
    spend_in(&queue.batches, room, |left, b, batch| {
        spend_batch(q, left, b, batch)
    })
}

fn rects_over(queues: &[Queue]) -> Option<Location>
    ensures { result ≡ rects_over queues.now }
{
    match spend_in(
        queues,
        MAX_RECTS,
        |left, q, queue| spend_queue(left, q, queue),
    ) {
        Ok(_) => None,
        Err(location) => Some(location),
    }
}

fn bytes_over(memories: &[Memory]) -> Option<usize>
    ensures { result ≡ first_over memory_bytes max_memory_bytes 0 memories.now }
{
    first_over(memories, MAX_MEMORY_BYTES, |memory| memory_bytes(memory))
}

// What the nodes of a batch leave of a room, where it lasts.
fn after_batch(room: usize, batch: &Batch) -> Option<usize>
    ensures some { IfSome result (λ left. left + batch_count batch.now ≡ room) }
    ensures none { IfNone result (room < batch_count batch.now) }
{
    let waits = batch.waits.len();
    let items = batch.items.len();
    let signals = if batch.signal.is_some() { 1 } else { 0 };
    if room < waits || room - waits < items || room - waits - items < signals {
        return None;
    }
    Some(room - waits - items - signals)
}

#[tactic(auto, using(crate::proofs::Counting::batches_on))]
fn after_batches(room: usize, batches: &[Batch]) -> Option<usize>
    ensures some { IfSome result (λ left. left + batches_count batches.now ≡ room) }
    ensures none { IfNone result (room < batches_count batches.now) }
{
    let mut left = room;
    for batch in batches {
        match after_batch(left, batch) {
            Some(rest) => left = rest,
            None => return None,
        }
    }
    Some(left)
}

#[tactic(auto, using(crate::proofs::Counting::queues_on))]
fn after_queues(room: usize, queues: &[Queue]) -> Option<usize>
    ensures some { IfSome result (λ left. left + queues_count queues.now ≡ room) }
    ensures none { IfNone result (room < queues_count queues.now) }
{
    let mut left = room;
    for queue in queues {
        match after_batches(left, &queue.batches) {
            Some(rest) => left = rest,
            None => return None,
        }
    }
    Some(left)
}

/// How many nodes the first queues have, which are not more than a program may have.
pub(crate) fn queue_nodes(queues: &[Queue], count: u32) -> u32
    requires within { count ≤ length queues.now }
    requires few { queues_count (take count queues.now) ≤ max_nodes }
    ensures { result ≡ queues_count (take count queues.now) }
{
    match after_queues(MAX_NODES, &queues[..count as usize]) {
        Some(left) => (MAX_NODES - left) as u32,
        None => unreachable!(),
    }
}

#[tactic(auto, using(crate::proofs::Counting::entries_count))]
fn nodes_fit(program: &Program) -> bool
    ensures { result ≡ nat_le (length (entries_of program.now)) max_nodes }
{
    match after_queues(MAX_NODES, &program.queues) {
        Some(left) => program.readbacks.len() <= left,
        None => false,
    }
}

// The limits on what stands in the lists.
fn count_broken(program: &Program) -> Option<Broken<Rule, Location>>
    ensures { result ≡ count_broken program.now }
{
    if program.queues.len() < 1 || program.queues.len() > MAX_QUEUES {
        return Some(over(Limit::Queues, Location::Queues));
    }
    if program.memories.len() > MAX_MEMORIES {
        return Some(over(Limit::Memories, Location::Memories));
    }
    if program.pieces.len() > MAX_PIECES {
        return Some(over(Limit::Pieces, Location::Pieces));
    }
    if !nodes_fit(program) {
        return Some(over(Limit::Nodes, Location::Whole));
    }
    if let Some(location) = rects_over(&program.queues) {
        return Some(over(Limit::Rects, location));
    }
    if program.readbacks.len() > MAX_READBACKS {
        return Some(over(Limit::Readbacks, Location::Readbacks));
    }
    None
}

// The limits on each piece and on the bytes of all memories.
fn size_broken(program: &Program) -> Option<Broken<Rule, Location>>
    ensures { result ≡ size_broken program.now }
{
    if let Some(i) = wrong_sides(&program.pieces) {
        return Some(over(Limit::Side, Location::Piece(i)));
    }
    if let Some(i) = wrong_size(&program.pieces) {
        return Some(over(Limit::Size, Location::Piece(i)));
    }
    match bytes_over(&program.memories) {
        Some(i) => Some(over(Limit::Total, Location::Memory(i))),
        None => None,
    }
}

/// The first limit that is broken.
pub(crate) fn limit_broken(program: &Program) -> Option<Broken<Rule, Location>>
    ensures { result ≡ limit_broken program.now }
{
    if let Some(broken) = count_broken(program) {
        return Some(broken);
    }
    size_broken(program)
}
