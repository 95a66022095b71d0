//! Which resources have persisting names, and where in a window their bytes are.

ghost use Rattle.std.specs.Prelude.{◌≡◌, ◌<◌, IfOk, IfSome, length};
ghost use Rattle.std.specs.List.{position};
ghost use Rattle.std.specs.Str.{bytes_eq};
ghost use Rattle.flight.specs.Internal.Left.{holders_of, left_after, left_by, nothing_left};
ghost use Rattle.law_window.specs.Declared.{holder_in};

use crate::names::numbered_name;
use base::{List, Name, NoMemory};
use frame::{Resource, ValidFrame};
use std::alloc::Global;

fn place_of(resources: &[Resource], name: Name) -> Option<usize>
    ensures { result ≡ position (λ r. bytes_eq name r.name) resources.now }
{
    resources.iter().position(|resource| name == resource.name)
}

/// The number of the resource that has a name.
#[tactic(auto, using(crate::proofs::Places::holder_found, crate::proofs::Places::position_within))]
pub(crate) fn holder_in(resources: &[Resource], name: Name) -> Option<usize>
    ensures holder { result ≡ holder_in resources.now name }
    ensures within { IfSome result (λ k. k < length resources.now) }
{
    place_of(resources, name)
}

/// For each persisting name the number of the resource that has it.
pub(crate) fn holders_of(
    alloc: Global,
    persist: &[Name],
    good: &ValidFrame,
) -> Result<List<Option<usize>>, NoMemory>
    ensures holders { IfOk result (λ holders. holders ≡ holders_of persist.now good.now) }
    ensures each { IfOk result (λ holders. length holders ≡ length persist.now) }
{
    let frame = good.frame();
    let mut holders = List::new(alloc);
    for name in persist {
        holders.push(holder_in(&frame.resources, *name))?;
    }
    Ok(holders)
}

/// Before a window all bytes are as they were persisted.
pub(crate) fn nothing_left(alloc: Global, persist: &[Name]) -> Result<List<Option<Name>>, NoMemory>
    ensures left { IfOk result (λ left. left ≡ nothing_left persist.now) }
    ensures each { IfOk result (λ left. length left ≡ length persist.now) }
{
    let mut left = List::new(alloc);
    for _name in persist {
        left.push(None)?;
    }
    Ok(left)
}

fn left_by(i: usize, holder: Option<usize>, name: Option<Name>) -> Option<Name>
    requires { i < 10 }
    ensures { result ≡ left_by i holder name }
{
    match holder {
        Some(k) => Some(numbered_name(i, k)),
        None => name,
    }
}

/// Where the bytes are after frame `i`.
#[tactic(auto, using(crate::proofs::Walks::left_on, crate::proofs::Walks::left_end, crate::proofs::Walks::length_left))]
pub(crate) fn left_after(
    alloc: Global,
    i: usize,
    holders: &[Option<usize>],
    left: &[Option<Name>],
) -> Result<List<Option<Name>>, NoMemory>
    requires few { i < 10 }
    requires each { length holders.now ≡ length left.now }
    ensures after { IfOk result (λ after. after ≡ left_after i holders.now left.now) }
    ensures each { IfOk result (λ after. length after ≡ length left.now) }
{
    let mut after = List::new(alloc);
    for (k, holder) in holders.iter().enumerate() {
        after.push(left_by(i, *holder, left[k]))?;
    }
    Ok(after)
}
