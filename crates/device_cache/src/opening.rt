//! A table as it is made: one segment for each memory that has a byte.

ghost use Rattle.std.specs.Prelude.{◌≡◌, ◌<◌, ◌≤◌, ◌+◌, ◌-◌, ◌==◌, ◌++◌, ◌∷◌, [], if◌then◌else◌, IfOk, ℕ, length, drop, replicate, vec_len, vec_capacity};
ghost use Rattle.std.specs.List.{sum_by};
ghost use Rattle.base.specs.Maxima.{max_memories, max_memory_bytes};
ghost use Rattle.device_cache.specs.Internal.Opened.{IsOpened, open_segment};
ghost use Rattle.device_cache.specs.Internal.Uses.{uses};

use crate::cell::Cell;
use crate::contents::Contents;
use crate::memory::Memory;
use crate::part::Part;
use crate::row::{AGENTS, Row};
use crate::segment::Segment;
use base::{List, NoMemory};
use std::alloc::Global;

// A memory behind the others, with the bytes of its slot. The answer is the first address past it.
fn add_memory(
    memories: &mut Vec<Memory>,
    segments: &mut Vec<Segment>,
    slot: u32,
    len: u32,
    total: u32,
) -> u32
    requires total { total + len ≤ max_memory_bytes }
    requires memories { vec_len memories.old < vec_capacity memories.old }
    requires segments { vec_len segments.old < vec_capacity segments.old }
    ensures total { result ≡ total + len }
    ensures memory { memories.new.items ≡ memories.old.items ++ record { start = total; size = len } ∷ [] }
    ensures segment { segments.new.items ≡ (if len == 0 then segments.old.items else segments.old.items ++ open_segment slot total len ∷ []) }
    ensures memories_len { vec_len memories.new ≡ vec_len memories.old + 1 }
    ensures memories_capacity { vec_capacity memories.new ≡ vec_capacity memories.old }
    ensures segments_len { vec_len segments.new ≤ vec_len segments.old + 1 }
    ensures segments_capacity { vec_capacity segments.new ≡ vec_capacity segments.old }
{
    memories.push_reserved(Memory {
        start: total,
        size: len,
    });
    if len != 0 {
        segments.push_reserved(open_segment(slot, total, len));
    }
    total + len
}

// The segment of a memory: its bytes are those of its slot, and no agent has a line.
fn open_segment(slot: u32, start: u32, len: u32) -> Segment
    requires { start + len ≤ max_memory_bytes }
    ensures { result ≡ open_segment slot start len }
{
    Segment {
        end: start + len,
        row: Row {
            main: Part { slot, start },
            lines: [Cell::Empty; AGENTS],
        },
    }
}

/// Lays the memories out one behind the other; memory m has the bytes of slot m + 1. The answer is the first address
/// past them.
pub(crate) fn lay_out(
    slots: &[Contents],
    memories: &mut Vec<Memory>,
    segments: &mut Vec<Segment>,
) -> u32
    requires junk { 0 < length slots.now }
    requires few { length slots.now ≤ max_memories + 1 }
    requires small { sum_by length (drop 1 slots.now) ≤ max_memory_bytes }
    requires memories { memories.old.items ≡ [] }
    requires segments { segments.old.items ≡ [] }
    requires memories_room { length slots.now ≤ vec_capacity memories.old + 1 }
    requires segments_room { length slots.now ≤ vec_capacity segments.old + 1 }
    ensures opened { IsOpened slots.now (length slots.now - 1) result memories.new.items segments.new.items }
    ensures small { result ≤ max_memory_bytes }
    ensures uses { (slot : ℕ) → uses slot segments.new.items ≤ 1 }
    ensures len { vec_len segments.new + 1 ≤ length slots.now }
    ensures capacity { vec_capacity segments.new ≡ vec_capacity segments.old }
{
    let count = slots.len() - 1;
    let mut total = 0;
    for memory in 0..count {
        let slot = memory + 1;
        let len = slots[slot].len();
        total = add_memory(memories, segments, slot as u32, len as u32, total);
    }
    total
}

/// Slot 0 has the junk, and the slots after it the opening bytes; there is room for further slots.
pub(crate) fn slots_of(
    junk: Contents,
    opening: List<Contents>,
    stores: u32,
) -> Result<Vec<Contents>, NoMemory>
    ensures items { IfOk result (λ v. v.items ≡ junk ∷ opening) }
    ensures room { IfOk result (λ v. vec_len v + stores ≤ vec_capacity v) }
{
    let mut slots = opening.into_vec();
    slots.insert(0, junk)?;
    slots.reserve(stores as usize)?;
    Ok(slots)
}

/// One use of each slot: of the junk by the table itself, and of opening bytes by their memory. There is room for further
/// slots.
pub(crate) fn counts_of(alloc: Global, count: usize, stores: u32) -> Result<Vec<u32>, NoMemory>
    ensures items { IfOk result (λ v. v.items ≡ replicate count 1) }
    ensures room { IfOk result (λ v. vec_len v + stores ≤ vec_capacity v) }
{
    let mut counts = vec![in alloc; 1; count]?;
    counts.reserve(stores as usize)?;
    Ok(counts)
}

/// An empty vector with room.
pub(crate) fn room_for<T: Drop>(alloc: Global, count: usize) -> Result<Vec<T>, NoMemory>
    ensures items { IfOk result (λ v. v.items ≡ []) }
    ensures room { IfOk result (λ v. count ≤ vec_capacity v) }
{
    let mut items = Vec::new(alloc);
    items.reserve(count)?;
    Ok(items)
}
