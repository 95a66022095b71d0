//! Which placed unit is before which.

ghost use Rattle.std.specs.Prelude.{◌≡◌, ◌<◌, ◌==◌, ◌&&◌, ◌||◌, ℕ, length, IfOk};
ghost use Rattle.std.specs.List.{All, list_all};
ghost use Rattle.compile_groups.specs.Placed.{placed};
ghost use Rattle.compile_lifetimes.specs.Internal.Lifetimes.{IsWithin, all_reach, is_before};
ghost use Rattle.compile_lifetimes.specs.Ordered.{IsOrdered};
ghost use Rattle.compile_heap.specs.Pairs.{has};
ghost use Rattle.base_reach.specs.Pairs.{has as reaches};

use crate::lifetime::{Lifetime, lifetimes_of};
use crate::reach::reach_of;
use base::NoMemory;
use base_reach::Rows;
use compile_groups::{Groups, Use};
use compile_heap::Pairs;
use std::alloc::Global;

fn reaches_each(rows: &Rows, from: u32, others: &[Use]) -> bool
    requires from { from < rows.now.count }
    requires others { All (λ v. v.command < rows.now.count) others.now }
    ensures { result ≡ list_all (λ v. reaches rows.now from v.command) others.now }
{
    for v in others {
        if !rows.has(from, v.command) {
            return false;
        }
    }
    true
}

// Whether each of these uses reaches each of the others.
fn all_reach(rows: &Rows, uses: &[Use], others: &[Use]) -> bool
    requires uses { All (λ u. u.command < rows.now.count) uses.now }
    requires others { All (λ v. v.command < rows.now.count) others.now }
    ensures { result ≡ all_reach (reaches rows.now) uses.now others.now }
{
    for u in uses {
        if !reaches_each(rows, u.command, others) {
            return false;
        }
    }
    true
}

// What uses the first unit last has to reach what uses the other first: all that comes before the one and after the other
// is joined to these by needs.
fn is_before(rows: &Rows, groups: &Groups, lifetimes: &[Lifetime], a: u32, b: u32) -> bool
    requires within { IsWithin groups.now lifetimes.now }
    requires rows { rows.now.count ≡ length groups.now.commands }
    requires a { a < length lifetimes.now }
    requires b { b < length lifetimes.now }
    ensures { result ≡ is_before (reaches rows.now) groups.now lifetimes.now a b }
{
    let last = groups.members(lifetimes[a as usize].last);
    let first = groups.members(lifetimes[b as usize].first);
    all_reach(rows, last, first)
}

fn set_if(pairs: &mut Pairs, a: u32, b: u32, wanted: bool)
    requires a { a < pairs.old.count }
    requires b { b < pairs.old.count }
    ensures count { pairs.new.count ≡ pairs.old.count }
    ensures has { (x y : ℕ) → x < pairs.old.count → y < pairs.old.count → has pairs.new x y ≡ (((y == b) && ((x == a) && wanted)) || has pairs.old x y) }
{
    if !wanted {
        return;
    }
    pairs.set(a, b);
}

// Adds the pairs of the unit at place a and the others.
fn add_row(
    pairs: &mut Pairs,
    rows: &Rows,
    groups: &Groups,
    lifetimes: &[Lifetime],
    a: u32,
    count: u32,
)
    requires count { count ≡ length lifetimes.now }
    requires pairs { pairs.old.count ≡ count }
    requires a { a < count }
    requires within { IsWithin groups.now lifetimes.now }
    requires rows { rows.now.count ≡ length groups.now.commands }
    ensures count { pairs.new.count ≡ pairs.old.count }
    ensures has { (x y : ℕ) → x < count → y < count → has pairs.new x y ≡ (((x == a) && is_before (reaches rows.now) groups.now lifetimes.now a y) || has pairs.old x y) }
{
    for b in 0..count {
        let wanted = is_before(rows, groups, lifetimes, a, b);
        set_if(pairs, a, b, wanted);
    }
}

fn add_rows(pairs: &mut Pairs, rows: &Rows, groups: &Groups, lifetimes: &[Lifetime], count: u32)
    requires count { count ≡ length lifetimes.now }
    requires pairs { pairs.old.count ≡ count }
    requires within { IsWithin groups.now lifetimes.now }
    requires rows { rows.now.count ≡ length groups.now.commands }
    ensures count { pairs.new.count ≡ pairs.old.count }
    ensures has { (x y : ℕ) → x < count → y < count → has pairs.new x y ≡ (is_before (reaches rows.now) groups.now lifetimes.now x y || has pairs.old x y) }
{
    for a in 0..count {
        add_row(pairs, rows, groups, lifetimes, a, count);
    }
}

/// Which of the placed units are used one after another: the pairs, by places in `placed`, of which each command that uses
/// the first reaches each command that uses the second.
pub fn ordered(alloc: Global, groups: &Groups) -> Result<Pairs, NoMemory>
    ensures count { IfOk result (λ pairs. pairs.count ≡ length (placed groups.now)) }
    ensures ordered { IfOk result (λ pairs. IsOrdered groups.now (has pairs)) }
{
    let rows = reach_of(alloc, groups)?;
    let lifetimes = lifetimes_of(alloc, groups)?;
    let count = groups.sizes().len() as u32;
    let mut pairs = Pairs::new(alloc, count)?;
    add_rows(&mut pairs, &rows, groups, &lifetimes, count);
    Ok(pairs)
}
