//! The command `bound`.

ghost use Rattle.std.specs.Prelude.{◌≡◌, IfOk, length};
ghost use Rattle.frame.specs.Numbered.{numbered};
ghost use Rattle.compile_groups.specs.Placed.{sizes};
ghost use Rattle.compile_heap.specs.Pairs.{has};
ghost use Rattle.answer.specs.Answers.{BoundsFrame};
ghost use Rattle.answer.specs.Internal.Stages.{AreBoundLines, AreGrouped, IsHeap};

use crate::answer::{Answer, done};
use crate::groups::kept_groups;
use base::{NoMemory, Text};
use cli::Form;
use compile_bound::bound_of;
use compile_groups::Groups;
use compile_heap::{Pairs, place};
use compile_lifetimes::ordered;
use frame::ValidFrame;
use report_json::bound_told;
use std::alloc::Global;

// How many bytes the heap of the least places has.
fn heap_of(alloc: Global, groups: &Groups, ordered: &Pairs) -> Result<u32, NoMemory>
    requires { ordered.now.count ≡ length (sizes groups.now) }
    ensures { IfOk result (IsHeap groups.now (has ordered.now)) }
{
    let placement = place(alloc, groups.sizes(), ordered)?;
    Ok(placement.heap())
}

#[tactic(auto, using(crate::proofs::BoundLemmas::chosen_placed, crate::proofs::PlaceLemmas::known_units))]
fn bound_lines(
    alloc: Global,
    form: Form,
    good: &ValidFrame,
    groups: &Groups,
    ordered: &Pairs,
    heap: u32,
) -> Result<Text, NoMemory>
    requires groups { AreGrouped (numbered good.now) groups.now }
    requires count { ordered.now.count ≡ length (sizes groups.now) }
    ensures { IfOk result (AreBoundLines form good.now groups.now (has ordered.now) heap) }
{
    let bound = bound_of(alloc, groups.sizes(), ordered)?;
    bound_told(alloc, form, good, groups, bound.least, heap, &bound.chosen)
}

#[tactic(auto, using(report::proofs::Places::as_many))]
fn bound_answer(
    alloc: Global,
    form: Form,
    good: &ValidFrame,
    groups: &Groups,
) -> Result<Answer, NoMemory>
    requires { AreGrouped (numbered good.now) groups.now }
    ensures frame { IfOk result (BoundsFrame form good.now) }
{
    let ordered = ordered(alloc, groups)?;
    let heap = heap_of(alloc, groups, &ordered)?;
    Ok(done(bound_lines(alloc, form, good, groups, &ordered, heap)?))
}

/// The answer to the command on a valid frame.
pub fn bound_frame(alloc: Global, form: Form, good: &ValidFrame) -> Result<Answer, NoMemory>
    ensures frame { IfOk result (BoundsFrame form good.now) }
{
    let groups = kept_groups(alloc, good)?;
    bound_answer(alloc, form, good, &groups)
}
