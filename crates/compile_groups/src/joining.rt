//! Which reads of a unit go together.

ghost use Rattle.std.specs.Prelude.{◌≡◌};
ghost use Rattle.compile_groups.specs.Groups.{family_of, same_family, same_layout, sharing_of, shares, joins};
ghost use Rattle.compile_groups.specs.Uses.{is_write};

use crate::Use;
use base::Family;
use vk::{Layout, Sharing, family_number};

fn family_of(families: &[Family], queue: u32) -> Family
    ensures { result ≡ family_of families.now queue }
{
    match families.get(queue as usize) {
        Some(family) => *family,
        None => Family::Graphics,
    }
}

fn same_family(families: &[Family], p: u32, q: u32) -> bool
    ensures { result ≡ same_family families.now p q }
{
    family_number(family_of(families, p)) == family_number(family_of(families, q))
}

fn sharing_of(sharings: &[Sharing], unit: u32) -> Sharing
    ensures { result ≡ sharing_of sharings.now unit }
{
    match sharings.get(unit as usize) {
        Some(sharing) => *sharing,
        None => Sharing::Exclusive,
    }
}

fn same_layout(a: Option<Layout>, b: Option<Layout>) -> bool
    ensures { result ≡ same_layout a b }
{
    match (a, b) {
        (Some(a), Some(b)) => a.number() == b.number(),
        (None, None) => true,
        _ => false,
    }
}

fn is_write(one: Use) -> bool
    ensures { result ≡ is_write one }
{
    one.writes.0 != 0
}

fn shares(families: &[Family], sharings: &[Sharing], unit: u32, p: u32, q: u32) -> bool
    ensures { result ≡ shares families.now sharings.now unit p q }
{
    sharing_of(sharings, unit).is_shared() || same_family(families, p, q)
}

/// Whether two uses of a unit are in one group, where one comes right after the other.
pub fn joins(families: &[Family], sharings: &[Sharing], one: Use, next: Use) -> bool
    ensures { result ≡ joins families.now sharings.now one next }
{
    !is_write(one)
        && !is_write(next)
        && same_layout(one.layout, next.layout)
        && shares(families, sharings, one.unit, one.queue, next.queue)
}
