//! A lower bound of the heap.

ghost use Rattle.std.specs.Prelude.{◌≡◌, ◌<◌, ◌≤◌, ◌++◌, OnOk, IfOk, length};
ghost use Rattle.std.specs.List.{All};
ghost use Rattle.frame.specs.Numbered.{numbered};
ghost use Rattle.compile_groups.specs.Placed.{placed};
ghost use Rattle.report.specs.BoundLines.{bound_line, bound_text, name_line, name_lines};

use crate::unit::add_unit;
use base::{List, NoMemory, Text};
use base_text::Lines;
use compile_groups::Groups;
use frame::ValidFrame;
use std::alloc::Global;

fn add_bound(text: &mut Text, least: u64, heap: u32) -> Result<(), NoMemory>
    ensures { OnOk result (text.new ≡ text.old ++ bound_line least heap) }
{
    text.word(b"bound ")?;
    text.number(least)?;
    text.word(b" heap ")?;
    text.number(u64::from(heap))?;
    text.end_line()
}

fn add_name(text: &mut Text, frame: &ValidFrame, unit: u32) -> Result<(), NoMemory>
    requires { unit < length (numbered frame.now).units }
    ensures { OnOk result (text.new ≡ text.old ++ name_line frame.now unit) }
{
    add_unit(text, frame, unit)?;
    text.end_line()
}

fn add_names(
    text: &mut Text,
    frame: &ValidFrame,
    units: &[u32],
    chosen: &[u32],
) -> Result<(), NoMemory>
    requires units { All (λ unit. unit < length (numbered frame.now).units) units.now }
    requires chosen { All (λ k. k < length units.now) chosen.now }
    ensures { OnOk result (text.new ≡ text.old ++ name_lines frame.now units.now chosen.now) }
{
    for k in chosen {
        add_name(text, frame, units[*k as usize])?;
    }
    Ok(())
}

/// The lines that `bound` prints: a number of bytes that no heap is smaller than, beside the size of the heap, and the names
/// of the placed units that show it, which are chosen by their places among the placed ones.
#[tactic(auto, using(crate::proofs::Places::placed_known))]
pub fn bound_text(
    alloc: Global,
    frame: &ValidFrame,
    groups: &Groups,
    least: u64,
    heap: u32,
    chosen: &[u32],
) -> Result<Text, NoMemory>
    requires units { length groups.now.imports ≤ length (numbered frame.now).units }
    requires chosen { All (λ k. k < length (placed groups.now)) chosen.now }
    ensures { IfOk result (λ text. text ≡ bound_text frame.now groups.now least heap chosen.now) }
{
    let mut text = List::new(alloc);
    add_bound(&mut text, least, heap)?;
    add_names(&mut text, frame, groups.placed(), chosen)?;
    Ok(text)
}
