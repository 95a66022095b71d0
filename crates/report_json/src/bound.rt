//! A lower bound of the heap.

ghost use Rattle.std.specs.Prelude.{◌≡◌, ◌<◌, ◌≤◌, ◌++◌, OnOk, IfOk, codes, length};
ghost use Rattle.std.specs.List.{All};
ghost use Rattle.frame.specs.Numbered.{numbered};
ghost use Rattle.compile_groups.specs.Placed.{placed};
ghost use Rattle.report_json.specs.Bounds.{bound_json, chosen_unit};
ghost use Rattle.report_json.specs.Json.{array, entries, member};

use crate::object::{add_comma, end_object, first_number, next_member, next_number};
use crate::unit::add_unit;
use base::{List, NoMemory, Text};
use base_text::Lines;
use compile_groups::Groups;
use frame::ValidFrame;
use std::alloc::Global;

#[tactic(auto, using(crate::proofs::Entries::one_more))]
fn add_chosen(
    text: &mut Text,
    frame: &ValidFrame,
    units: &[u32],
    chosen: &[u32],
) -> Result<(), NoMemory>
    requires units { All (λ unit. unit < length (numbered frame.now).units) units.now }
    requires chosen { All (λ k. k < length units.now) chosen.now }
    ensures { OnOk result (text.new ≡ text.old ++ entries (chosen_unit frame.now units.now) 0 chosen.now) }
{
    for (entry, k) in chosen.iter().enumerate() {
        add_comma(text, entry)?;
        add_unit(text, frame, units[*k as usize])?;
    }
    Ok(())
}

// The member that has them all.
#[tactic(auto, unfolding(crate::specs::Json::member))]
fn next_chosen(
    text: &mut Text,
    frame: &ValidFrame,
    units: &[u32],
    chosen: &[u32],
) -> Result<(), NoMemory>
    requires units { All (λ unit. unit < length (numbered frame.now).units) units.now }
    requires chosen { All (λ k. k < length units.now) chosen.now }
    ensures { OnOk result (text.new ≡ text.old ++ codes "," ++ member (codes "units") (array (chosen_unit frame.now units.now) chosen.now)) }
{
    next_member(text, b"units")?;
    text.word(b"[")?;
    add_chosen(text, frame, units, chosen)?;
    text.word(b"]")
}

/// The object that `bound --json` prints: a number of bytes that no heap is smaller than, beside the size of the heap, and
/// the names of the placed units that show it, which are chosen by their places among the placed ones.
#[tactic(auto, using(report::proofs::Places::placed_known))]
pub(crate) fn bound_json(
    alloc: Global,
    frame: &ValidFrame,
    groups: &Groups,
    least: u64,
    heap: u32,
    chosen: &[u32],
) -> Result<Text, NoMemory>
    requires units { length groups.now.imports ≤ length (numbered frame.now).units }
    requires chosen { All (λ k. k < length (placed groups.now)) chosen.now }
    ensures { IfOk result (λ text. text ≡ bound_json frame.now groups.now least heap chosen.now) }
{
    let mut text = List::new(alloc);
    first_number(&mut text, b"bound", least)?;
    next_number(&mut text, b"heap", u64::from(heap))?;
    next_chosen(&mut text, frame, groups.placed(), chosen)?;
    end_object(&mut text)?;
    Ok(text)
}
