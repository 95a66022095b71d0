//! Where transient resources lie.

ghost use Rattle.std.specs.Prelude.{◌≡◌, ◌<◌, ◌≤◌, ◌++◌, OnOk, IfOk, length};
ghost use Rattle.std.specs.List.{All, sum};
ghost use Rattle.base.specs.Maxima.{max_units, max_resource_bytes};
ghost use Rattle.frame.specs.Numbered.{numbered};
ghost use Rattle.compile_groups.specs.Placed.{placed};
ghost use Rattle.report.specs.PlaceLines.{heap_line, place_line, place_lines, place_text};

use crate::unit::add_unit;
use base::{List, NoMemory, Text};
use base_text::Lines;
use compile_groups::Groups;
use compile_heap::Placement;
use frame::ValidFrame;
use std::alloc::Global;

/// The sum of sizes that are at most 256 MiB together.
#[tactic(auto, using(crate::proofs::Sums::sum_more, crate::proofs::Sums::sum_under))]
pub fn sum_of_sizes(sizes: &[u32]) -> u32
    requires { sum sizes.now ≤ max_resource_bytes }
    ensures { result ≡ sum sizes.now }
{
    let mut sum = 0;
    for size in sizes {
        sum += *size;
    }
    sum
}

fn add_heap(text: &mut Text, sizes: &[u32], heap: u32) -> Result<(), NoMemory>
    requires { sum sizes.now ≤ max_resource_bytes }
    ensures { OnOk result (text.new ≡ text.old ++ heap_line sizes.now heap) }
{
    text.word(b"heap ")?;
    text.number(u64::from(heap))?;
    text.word(b" separate ")?;
    text.number(u64::from(sum_of_sizes(sizes)))?;
    text.end_line()
}

fn add_place(
    text: &mut Text,
    frame: &ValidFrame,
    offset: u32,
    size: u32,
    unit: u32,
) -> Result<(), NoMemory>
    requires { unit < length (numbered frame.now).units }
    ensures { OnOk result (text.new ≡ text.old ++ place_line frame.now offset size unit) }
{
    text.number(u64::from(offset))?;
    text.word(b" ")?;
    text.number(u64::from(size))?;
    text.word(b" ")?;
    add_unit(text, frame, unit)?;
    text.end_line()
}

fn add_places(
    text: &mut Text,
    frame: &ValidFrame,
    units: &[u32],
    sizes: &[u32],
    placement: &Placement,
) -> Result<(), NoMemory>
    requires few { length units.now ≤ max_units }
    requires units { All (λ unit. unit < length (numbered frame.now).units) units.now }
    requires sizes { length sizes.now ≡ length units.now }
    requires places { length placement.now.offsets ≡ length units.now }
    ensures { OnOk result (text.new ≡ text.old ++ place_lines frame.now sizes.now placement.now.offsets 0 units.now) }
{
    for (k, unit) in units.iter().enumerate() {
        let offset = placement.offset(k as u32);
        add_place(text, frame, offset, sizes[k], *unit)?;
    }
    Ok(())
}

/// The lines that `place` prints: the size of the heap beside what the placed units would take one by one, and for each of
/// them its first byte, its size and its name.
#[tactic(auto, using(crate::proofs::Places::placed_known, crate::proofs::Places::as_many))]
pub fn place_text(
    alloc: Global,
    frame: &ValidFrame,
    groups: &Groups,
    placement: &Placement,
) -> Result<Text, NoMemory>
    requires units { length groups.now.imports ≤ length (numbered frame.now).units }
    requires places { length placement.now.offsets ≡ length (placed groups.now) }
    ensures { IfOk result (λ text. text ≡ place_text frame.now groups.now placement.now) }
{
    let mut text = List::new(alloc);
    let sizes = groups.sizes();
    add_heap(&mut text, sizes, placement.heap())?;
    add_places(&mut text, frame, groups.placed(), sizes, placement)?;
    Ok(text)
}
