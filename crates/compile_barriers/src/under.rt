//! What was done to the bytes of a unit before it.

ghost use Rattle.std.specs.Prelude.{◌≡◌, ◌<◌, ◌+◌, length, IfOk, IfSome, IfNone};
ghost use Rattle.compile_groups.specs.Placed.{placed, sizes};
ghost use Rattle.compile_heap.specs.Placing.{number_at, overlap};
ghost use Rattle.compile_barriers.specs.Internal.Lasts.{AreLasts};
ghost use Rattle.compile_barriers.specs.Under.{heap_of, place_of, is_under, last_uses, uses_under};

use crate::member::unit_of;
use base::{List, NoMemory};
use compile_groups::{Groups, Use};
use compile_heap::{Pairs, Placement};
use std::alloc::Global;

/// For each unit the number of its last group, counted from 1. A unit without a group has 0.
pub(crate) fn last_groups(alloc: Global, groups: &Groups) -> Result<List<u32>, NoMemory>
    ensures { IfOk result (λ lasts. AreLasts groups.now (length groups.now.groups) lasts) }
{
    let mut lasts = List::from_vec(vec![in alloc; 0; groups.unit_count() as usize]?);
    for g in 0..groups.group_count() {
        let unit = unit_of(groups.members(g));
        lasts.set(unit as usize, g + 1);
    }
    Ok(lasts)
}

fn last_uses<'a>(groups: &'a Groups, lasts: &[u32], unit: u32) -> &'a [Use]
    requires lasts { AreLasts groups.now (length groups.now.groups) lasts.now }
    requires unit { unit < length groups.now.imports }
    ensures { result.now ≡ last_uses groups.now unit }
{
    let last = lasts[unit as usize];
    if last == 0 {
        &[]
    } else {
        groups.members(last - 1)
    }
}

/// The place of a unit among those that are placed, if it is one of them.
pub(crate) fn place_of(groups: &Groups, unit: u32) -> Option<u32>
    ensures some { IfSome result (λ b. (b ≡ place_of groups.now unit) × (b < length (placed groups.now))) }
    ensures none { IfNone result (place_of groups.now unit ≡ length (placed groups.now)) }
{
    let count = groups.sizes().len() as u32;
    for b in 0..count {
        if groups.placed()[b as usize] == unit {
            return Some(b);
        }
    }
    None
}

// Where the unit at a place begins and ends.
fn begin_of(placement: &Placement, a: u32) -> u64
    requires { a < length placement.now.offsets }
    ensures { result ≡ number_at placement.now.offsets a }
{
    u64::from(placement.offset(a))
}

fn size_of(groups: &Groups, a: u32) -> u32
    requires { a < length (placed groups.now) }
    ensures { result ≡ number_at (sizes groups.now) a }
{
    groups.sizes()[a as usize]
}

fn end_of(groups: &Groups, placement: &Placement, a: u32) -> u64
    requires placement { length placement.now.offsets ≡ length (placed groups.now) }
    requires a { a < length (placed groups.now) }
    ensures { result ≡ number_at placement.now.offsets a + number_at (sizes groups.now) a }
{
    u64::from(placement.offset(a)) + u64::from(size_of(groups, a))
}

// Whether the units at two places have a byte in common.
fn overlap(groups: &Groups, placement: &Placement, a: u32, b: u32) -> bool
    requires placement { length placement.now.offsets ≡ length (placed groups.now) }
    requires a { a < length (placed groups.now) }
    requires b { b < length (placed groups.now) }
    ensures { result ≡ overlap (number_at placement.now.offsets a) (number_at (sizes groups.now) a) (number_at placement.now.offsets b) (number_at (sizes groups.now) b) }
{
    begin_of(placement, a) < end_of(groups, placement, b)
        && begin_of(placement, b) < end_of(groups, placement, a)
}

// Whether the unit at place a is used before that at place b, and both have a byte of the heap.
fn is_under(groups: &Groups, ordered: &Pairs, placement: &Placement, b: u32, a: u32) -> bool
    requires ordered { ordered.now.count ≡ length (placed groups.now) }
    requires placement { length placement.now.offsets ≡ length (placed groups.now) }
    requires a { a < length (placed groups.now) }
    requires b { b < length (placed groups.now) }
    ensures { result ≡ is_under groups.now (heap_of ordered.now placement.now) b a }
{
    ordered.has(a, b) && overlap(groups, placement, a, b)
}

/// The last uses of all units that had bytes of the unit at place b before it.
pub(crate) fn uses_under(
    alloc: Global,
    groups: &Groups,
    ordered: &Pairs,
    placement: &Placement,
    lasts: &[u32],
    b: u32,
) -> Result<List<Use>, NoMemory>
    requires ordered { ordered.now.count ≡ length (placed groups.now) }
    requires placement { length placement.now.offsets ≡ length (placed groups.now) }
    requires lasts { AreLasts groups.now (length groups.now.groups) lasts.now }
    requires b { b < length (placed groups.now) }
    ensures { IfOk result (λ uses. uses ≡ uses_under groups.now (heap_of ordered.now placement.now) b) }
{
    let mut uses = List::new(alloc);
    for a in 0..ordered.count() {
        if is_under(groups, ordered, placement, b, a) {
            uses.extend_from_slice(last_uses(groups, lasts, groups.placed()[a as usize]))?;
        }
    }
    Ok(uses)
}
