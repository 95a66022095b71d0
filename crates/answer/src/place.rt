//! The command `place`.

ghost use Rattle.std.specs.Prelude.{IfOk};
ghost use Rattle.frame.specs.Numbered.{numbered};
ghost use Rattle.answer.specs.Answers.{PlacesFrame};
ghost use Rattle.answer.specs.Internal.Stages.{AreGrouped, ArePlaced, ArePlaceLines};

use crate::answer::{Answer, done};
use crate::groups::kept_groups;
use base::{NoMemory, Text};
use cli::Form;
use compile_groups::Groups;
use compile_heap::{Placement, place};
use compile_lifetimes::ordered;
use frame::ValidFrame;
use report_json::place_told;
use std::alloc::Global;

// Where the transient units lie.
fn places_of(alloc: Global, groups: &Groups) -> Result<Placement, NoMemory>
    ensures { IfOk result (ArePlaced groups.now) }
{
    let ordered = ordered(alloc, groups)?;
    place(alloc, groups.sizes(), &ordered)
}

#[tactic(auto, using(crate::proofs::PlaceLemmas::as_many, crate::proofs::PlaceLemmas::known_units))]
fn place_lines(
    alloc: Global,
    form: Form,
    good: &ValidFrame,
    groups: &Groups,
) -> Result<Text, NoMemory>
    requires { AreGrouped (numbered good.now) groups.now }
    ensures { IfOk result (ArePlaceLines form good.now groups.now) }
{
    let placement = places_of(alloc, groups)?;
    place_told(alloc, form, good, groups, &placement)
}

fn place_answer(
    alloc: Global,
    form: Form,
    good: &ValidFrame,
    groups: &Groups,
) -> Result<Answer, NoMemory>
    requires { AreGrouped (numbered good.now) groups.now }
    ensures frame { IfOk result (PlacesFrame form good.now) }
{
    Ok(done(place_lines(alloc, form, good, groups)?))
}

/// The answer to the command on a valid frame.
pub fn place_frame(alloc: Global, form: Form, good: &ValidFrame) -> Result<Answer, NoMemory>
    ensures frame { IfOk result (PlacesFrame form good.now) }
{
    let groups = kept_groups(alloc, good)?;
    place_answer(alloc, form, good, &groups)
}
