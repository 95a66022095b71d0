//! What stands before all groups.

ghost use Rattle.std.specs.Prelude.{◌≡◌, ◌<◌, length, IfOk};
ghost use Rattle.compile_groups.specs.Placed.{placed};
ghost use Rattle.compile_barriers.specs.Internal.Lasts.{AreLasts};
ghost use Rattle.compile_barriers.specs.Prologues.{earlier, prologue_of, prologues};
ghost use Rattle.compile_barriers.specs.Under.{heap_of};

use crate::Prologue;
use crate::first::{first_prologue, no_prologue};
use crate::member::unit_of;
use crate::next::next_prologue;
use crate::under::{last_groups, place_of, uses_under};
use base::{List, NoMemory};
use compile_groups::{Groups, Use};
use compile_heap::{Pairs, Placement};
use std::alloc::Global;

// The uses of the group of the same unit right before, if there is one.
fn earlier(groups: &Groups, g: u32) -> &[Use]
    requires { g < length groups.now.groups }
    ensures { result.now ≡ earlier groups.now g }
{
    if g == 0 {
        return &[];
    }
    let before = groups.members(g - 1);
    if unit_of(before) == unit_of(groups.members(g)) {
        before
    } else {
        &[]
    }
}

fn prologue_of(
    alloc: Global,
    groups: &Groups,
    ordered: &Pairs,
    placement: &Placement,
    lasts: &[u32],
    g: u32,
) -> Result<Prologue, NoMemory>
    requires ordered { ordered.now.count ≡ length (placed groups.now) }
    requires placement { length placement.now.offsets ≡ length (placed groups.now) }
    requires lasts { AreLasts groups.now (length groups.now.groups) lasts.now }
    requires g { g < length groups.now.groups }
    ensures { IfOk result (λ prologue. prologue ≡ prologue_of groups.now (heap_of ordered.now placement.now) g) }
{
    let before = earlier(groups, g);
    let members = groups.members(g);
    if !before.is_empty() {
        return Ok(next_prologue(groups, g, before, members));
    }
    match place_of(groups, unit_of(members)) {
        None => Ok(no_prologue(g, members)),
        Some(b) => {
            let last = uses_under(alloc, groups, ordered, placement, lasts, b)?;
            Ok(first_prologue(g, &last, members))
        }
    }
}

/// For each group what stands before it, and the release after the group before it. `ordered` and `placement` are of the
/// placed units, by their places in `placed`.
#[tactic(auto, using(base::proofs::Lists::one_more))]
pub fn prologues(
    alloc: Global,
    groups: &Groups,
    ordered: &Pairs,
    placement: &Placement,
) -> Result<List<Prologue>, NoMemory>
    requires ordered { ordered.now.count ≡ length (placed groups.now) }
    requires placement { length placement.now.offsets ≡ length (placed groups.now) }
    ensures { IfOk result (λ list. list ≡ prologues groups.now (heap_of ordered.now placement.now)) }
{
    let lasts = last_groups(alloc, groups)?;
    let mut list = List::new(alloc);
    for g in 0..groups.group_count() {
        list.push(prologue_of(alloc, groups, ordered, placement, &lasts, g)?)?;
    }
    Ok(list)
}
