//! Bytes are copied out of a table, a segment at a time.

ghost use Rattle.std.specs.Prelude.{◌≡◌, ◌<◌, ◌≤◌, ◌+◌, ◌^◌, ℕ, length, slice_index, IfSome, IfOk};
ghost use Rattle.device_cache.specs.Internal.Rows.{seen_byte, seen_part, HasLine};
ghost use Rattle.device_cache.specs.Places.{place, row_at};
ghost use Rattle.device_cache.specs.Internal.Segments.{Ascending};
ghost use Rattle.device_cache.specs.Tables.{slot_at, byte_in};
ghost use Rattle.device_cache.specs.Internal.Kept.{IsThere, Knows};

use crate::cell::Cell;
use crate::contents::Contents;
use crate::part::Part;
use crate::row::Row;
use crate::segment::{Segment, place_of};
use base::NoMemory;
use bytes::Bytes;
use std::alloc::Global;

// The part that the agent sees, or main's where no agent is named.
fn seen_in(row: &Row, agent: Option<u32>) -> Part
    requires { HasLine row.now agent }
    ensures { result ≡ seen_part row.now agent }
{
    match agent {
        None => row.main,
        Some(agent) => match row.lines[agent as usize] {
            Cell::Empty => row.main,
            Cell::Clean(part) => part,
            Cell::Dirty(part) => part,
        },
    }
}

// The bytes of a part from an address on.
fn copy_part(slots: &[Contents], part: Part, at: u32, out: &mut [u8])
    requires slot { part.slot < length slots.now }
    requires from { part.start ≤ at }
    requires to { at + length out.old ≤ part.start + length (slot_at slots.now part.slot) }
    ensures { (k : ℕ) → k < length out.old → slice_index out.new k ≡ byte_in slots.now part (at + k) }
{
    slots[part.slot as usize].copy_to((at - part.start) as usize, out);
}

// Addresses from a first one up to `end` that have their bytes from one part.
#[derive(Clone, Copy)]
struct Run {
    end: u32,
    part: Part,
}

// The addresses of one segment from `at` on, and before `to`.
fn run_at(segments: &[Segment], index: usize, agent: Option<u32>, at: u32, to: u32) -> Run
    requires ascending { Ascending segments.now }
    requires index { index ≡ place segments.now at }
    requires covered { index < length segments.now }
    requires lines { HasLine (row_at segments.now at) agent }
    requires some { at < to }
    ensures some { at < result.end }
    ensures end { result.end ≤ to }
    ensures part { (x : ℕ) → at ≤ x → x < result.end → seen_part (row_at segments.now x) agent ≡ result.part }
    ensures next { result.end < to → place segments.now result.end ≡ index + 1 }
{
    let segment = &segments[index];
    Run {
        end: segment.end.min(to),
        part: seen_in(&segment.row, agent),
    }
}

/// Copies the bytes from an address on, as the agent sees them, or main's.
pub(crate) fn copy_out(
    segments: &[Segment],
    slots: &[Contents],
    agent: Option<u32>,
    from: u32,
    out: &mut [u8],
)
    requires ascending { Ascending segments.now }
    requires there { (x : ℕ) → from ≤ x → x < from + length out.old → IsThere slots.now segments.now x }
    requires agent { Knows 32 agent }
    requires within { from + length out.old < 2 ^ 32 }
    ensures { (k : ℕ) → k < length out.old → slice_index out.new k ≡ seen_byte slots.now segments.now agent (from + k) }
{
    let to = from + out.len() as u32;
    let mut index = place_of(segments, from);
    let mut at = from;
    while at < to {
        let run = run_at(segments, index, agent, at, to);
        copy_part(
            slots,
            run.part,
            at,
            &mut out[(at - from) as usize..(run.end - from) as usize],
        );
        at = run.end;
        index += 1;
    }
}

// The part that has all addresses from one up to another, if one has.
fn one_part(segments: &[Segment], agent: Option<u32>, from: u32, to: u32) -> Option<Part>
    requires ascending { Ascending segments.now }
    requires covered { (x : ℕ) → from ≤ x → x < to → place segments.now x < length segments.now }
    requires lines { (x : ℕ) → from ≤ x → x < to → HasLine (row_at segments.now x) agent }
    requires some { from < to }
    ensures { IfSome result (λ part. (x : ℕ) → from ≤ x → x < to → seen_part (row_at segments.now x) agent ≡ part) }
{
    let mut index = place_of(segments, from);
    let first = run_at(segments, index, agent, from, to);
    let mut at = first.end;
    while at < to {
        index += 1;
        let run = run_at(segments, index, agent, at, to);
        if run.part != first.part {
            return None;
        }
        at = run.end;
    }
    Some(first.part)
}

// The bytes from an address on, so many, where one slot has them all and they need no copy.
fn shared_bytes(
    segments: &[Segment],
    slots: &[Contents],
    agent: Option<u32>,
    from: u32,
    len: u32,
) -> Option<Contents>
    requires ascending { Ascending segments.now }
    requires there { (x : ℕ) → from ≤ x → x < from + len → IsThere slots.now segments.now x }
    requires agent { Knows 32 agent }
    requires within { from + len < 2 ^ 32 }
    requires some { 0 < len }
    ensures len { IfSome result (λ bytes. length bytes ≡ len) }
    ensures bytes { IfSome result (λ bytes. (k : ℕ) → k < len → slice_index bytes k ≡ seen_byte slots.now segments.now agent (from + k)) }
{
    let part = one_part(segments, agent, from, from + len)?;
    slots[part.slot as usize].part((from - part.start) as usize, len as usize)
}

// The same in memory of their own.
fn copied_bytes(
    alloc: Global,
    segments: &[Segment],
    slots: &[Contents],
    agent: Option<u32>,
    from: u32,
    len: u32,
) -> Result<Contents, NoMemory>
    requires ascending { Ascending segments.now }
    requires there { (x : ℕ) → from ≤ x → x < from + len → IsThere slots.now segments.now x }
    requires agent { Knows 32 agent }
    requires within { from + len < 2 ^ 32 }
    ensures len { IfOk result (λ bytes. length bytes ≡ len) }
    ensures bytes { IfOk result (λ bytes. (k : ℕ) → k < len → slice_index bytes k ≡ seen_byte slots.now segments.now agent (from + k)) }
{
    let mut out = vec![in alloc; 0; len as usize]?;
    copy_out(segments, slots, agent, from, &mut out);
    Ok(Contents::shared(Bytes::from_vec(out)?))
}

/// The bytes from an address on, so many, as the agent sees them: without a copy where one slot has them all and its form needs none.
pub(crate) fn seen_bytes(
    alloc: Global,
    segments: &[Segment],
    slots: &[Contents],
    agent: Option<u32>,
    from: u32,
    len: u32,
) -> Result<Contents, NoMemory>
    requires ascending { Ascending segments.now }
    requires there { (x : ℕ) → from ≤ x → x < from + len → IsThere slots.now segments.now x }
    requires agent { Knows 32 agent }
    requires within { from + len < 2 ^ 32 }
    ensures len { IfOk result (λ bytes. length bytes ≡ len) }
    ensures bytes { IfOk result (λ bytes. (k : ℕ) → k < len → slice_index bytes k ≡ seen_byte slots.now segments.now agent (from + k)) }
{
    if len != 0 {
        if let Some(bytes) = shared_bytes(segments, slots, agent, from, len) {
            return Ok(bytes);
        }
    }
    copied_bytes(alloc, segments, slots, agent, from, len)
}
