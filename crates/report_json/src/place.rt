//! Where transient resources lie.

ghost use Rattle.std.specs.Prelude.{◌≡◌, ◌<◌, ◌≤◌, ◌++◌, OnOk, IfOk, codes, length};
ghost use Rattle.std.specs.List.{All, sum};
ghost use Rattle.base.specs.Maxima.{max_units, max_resource_bytes};
ghost use Rattle.frame.specs.Numbered.{numbered};
ghost use Rattle.compile_groups.specs.Placed.{placed};
ghost use Rattle.report_json.specs.Json.{array, entries, member, number};
ghost use Rattle.report_json.specs.Places.{place_json, place_object, placed_at};

use crate::object::{add_comma, end_object, first_number, next_member, next_number};
use crate::unit::next_unit;
use base::{List, NoMemory, Text};
use base_text::Lines;
use compile_groups::Groups;
use compile_heap::Placement;
use frame::ValidFrame;
use report::sum_of_sizes;
use std::alloc::Global;

fn add_heap(text: &mut Text, sizes: &[u32], heap: u32) -> Result<(), NoMemory>
    requires { sum sizes.now ≤ max_resource_bytes }
    ensures { OnOk result (text.new ≡ text.old ++ codes "{" ++ member (codes "heap") (number heap) ++ codes "," ++ member (codes "separate") (number (sum sizes.now))) }
{
    first_number(text, b"heap", u64::from(heap))?;
    next_number(text, b"separate", u64::from(sum_of_sizes(sizes)))
}

fn add_place(
    text: &mut Text,
    frame: &ValidFrame,
    offset: u32,
    size: u32,
    unit: u32,
) -> Result<(), NoMemory>
    requires { unit < length (numbered frame.now).units }
    ensures { OnOk result (text.new ≡ text.old ++ place_object frame.now offset size unit) }
{
    first_number(text, b"offset", u64::from(offset))?;
    next_number(text, b"size", u64::from(size))?;
    next_unit(text, frame, unit)?;
    text.word(b"}")
}

fn add_places(
    text: &mut Text,
    frame: &ValidFrame,
    units: &[u32],
    sizes: &[u32],
    placement: &Placement,
) -> Result<(), NoMemory>
    requires few { length units.now ≤ max_units }
    requires units { All (λ unit. unit < length (numbered frame.now).units) units.now }
    requires sizes { length sizes.now ≡ length units.now }
    requires places { length placement.now.offsets ≡ length units.now }
    ensures { OnOk result (text.new ≡ text.old ++ entries (placed_at frame.now placement.now.offsets sizes.now) 0 units.now) }
{
    for (k, unit) in units.iter().enumerate() {
        add_comma(text, k)?;
        let offset = placement.offset(k as u32);
        add_place(text, frame, offset, sizes[k], *unit)?;
    }
    Ok(())
}

// The member that has them all.
#[tactic(auto, unfolding(crate::specs::Json::member))]
fn next_places(
    text: &mut Text,
    frame: &ValidFrame,
    units: &[u32],
    sizes: &[u32],
    placement: &Placement,
) -> Result<(), NoMemory>
    requires few { length units.now ≤ max_units }
    requires units { All (λ unit. unit < length (numbered frame.now).units) units.now }
    requires sizes { length sizes.now ≡ length units.now }
    requires places { length placement.now.offsets ≡ length units.now }
    ensures { OnOk result (text.new ≡ text.old ++ codes "," ++ member (codes "units") (array (placed_at frame.now placement.now.offsets sizes.now) units.now)) }
{
    next_member(text, b"units")?;
    text.word(b"[")?;
    add_places(text, frame, units, sizes, placement)?;
    text.word(b"]")
}

/// The object that `place --json` prints: the size of the heap beside what the placed units would take one by one, and for
/// each of them its first byte, its size and its name.
#[tactic(auto, using(report::proofs::Places::placed_known, report::proofs::Places::as_many))]
pub(crate) fn place_json(
    alloc: Global,
    frame: &ValidFrame,
    groups: &Groups,
    placement: &Placement,
) -> Result<Text, NoMemory>
    requires units { length groups.now.imports ≤ length (numbered frame.now).units }
    requires places { length placement.now.offsets ≡ length (placed groups.now) }
    ensures { IfOk result (λ text. text ≡ place_json frame.now groups.now placement.now) }
{
    let mut text = List::new(alloc);
    let sizes = groups.sizes();
    add_heap(&mut text, sizes, placement.heap())?;
    next_places(&mut text, frame, groups.placed(), sizes, placement)?;
    end_object(&mut text)?;
    Ok(text)
}
