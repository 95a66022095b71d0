//! The passes of a window.

ghost use Rattle.std.specs.Prelude.{◌≡◌, ◌++◌, ◌<◌, IfOk, OnOk, length, map, true};
ghost use Rattle.std.specs.List.{All};
ghost use Rattle.base.specs.Bounds.{size_allowed};
ghost use Rattle.base.specs.Operands.{mapped};
ghost use Rattle.flight.specs.Internal.WindowParts.{passes_by};
ghost use Rattle.law_window.specs.Names.{numbered_name, rename_in};
ghost use Rattle.law_window.specs.Passes.{renamed_pass, renamed_passes, renamed_spot, renamed_write};

use crate::joins::{add_join, carries_by};
use crate::names::numbered_name;
use crate::spots::{renamed_spot, renamed_spots};
use base::{List, Name, NoMemory, Op};
use frame::{Frame, Pass, Spot, ValidFrame, Write, frame_laws};
use std::alloc::Global;

fn renamed_writes(
    alloc: Global,
    i: usize,
    frame: &Frame,
    writes: &[Write<Spot>],
) -> Result<List<Write<Spot>>, NoMemory>
    requires { i < 10 }
    ensures { IfOk result (λ renamed. renamed ≡ map (renamed_write (rename_in i frame.now)) writes.now) }
{
    let mut renamed = List::new(alloc);
    for write in writes {
        renamed.push(Write {
            what: renamed_spot(i, frame, write.what),
            fresh: write.fresh,
        })?;
    }
    Ok(renamed)
}

fn renamed_op(alloc: Global, i: usize, frame: &Frame, op: &Op<Spot>) -> Result<Op<Spot>, NoMemory>
    requires { i < 10 }
    ensures { IfOk result (λ renamed. renamed ≡ mapped (renamed_spot (rename_in i frame.now)) op.now) }
{
    op.mapped(alloc, |spot: Spot| Ok(renamed_spot(i, frame, spot)))
}

fn renamed_ops(
    alloc: Global,
    i: usize,
    frame: &Frame,
    ops: &[Op<Spot>],
) -> Result<List<Op<Spot>>, NoMemory>
    requires { i < 10 }
    ensures { IfOk result (λ renamed. renamed ≡ map (mapped (renamed_spot (rename_in i frame.now))) ops.now) }
{
    let mut renamed = List::new(alloc);
    for op in ops {
        renamed.push(renamed_op(alloc, i, frame, op)?)?;
    }
    Ok(renamed)
}

fn renamed_pass(
    alloc: Global,
    i: usize,
    frame: &Frame,
    k: usize,
    pass: &Pass,
) -> Result<Pass, NoMemory>
    requires { i < 10 }
    ensures { IfOk result (λ renamed. renamed ≡ renamed_pass (rename_in i frame.now) (numbered_name i k) pass.now) }
{
    Ok(Pass {
        name: numbered_name(i, k),
        queue: pass.queue,
        reads: renamed_spots(alloc, i, frame, &pass.reads)?,
        writes: renamed_writes(alloc, i, frame, &pass.writes)?,
        ops: renamed_ops(alloc, i, frame, &pass.ops)?,
        side_effect: pass.side_effect,
    })
}

#[tactic(auto, using(crate::proofs::Walks::pass_on, crate::proofs::Walks::passes_end))]
fn add_renamed(
    alloc: Global,
    passes: &mut List<Pass>,
    i: usize,
    frame: &Frame,
) -> Result<(), NoMemory>
    requires { i < 10 }
    ensures { OnOk result (passes.new ≡ passes.old ++ renamed_passes i 0 (rename_in i frame.now) frame.now.passes) }
{
    for (k, pass) in frame.passes.iter().enumerate() {
        passes.push(renamed_pass(alloc, i, frame, k, pass)?)?;
    }
    Ok(())
}

// The join pass stands before the frame's own.
#[tactic(auto, using(crate::proofs::Walks::both_added))]
fn add_both(
    alloc: Global,
    passes: &mut List<Pass>,
    queue: Name,
    i: usize,
    holders: &[Option<usize>],
    left: &[Option<Name>],
    frame: &Frame,
) -> Result<(), NoMemory>
    requires few { i < 10 }
    requires sizes { All (λ r. size_allowed r.shape ≡ true) frame.now.resources }
    requires each { length holders.now ≡ length left.now }
    ensures { OnOk result (passes.new ≡ passes.old ++ passes_by queue i holders.now left.now frame.now) }
{
    let carries = carries_by(alloc, i, &frame.resources, holders, left)?;
    add_join(alloc, passes, i, queue, &carries)?;
    add_renamed(alloc, passes, i, frame)
}

/// Adds the passes of frame `i` of a window.
pub(crate) fn add_passes(
    alloc: Global,
    passes: &mut List<Pass>,
    queue: Name,
    i: usize,
    holders: &[Option<usize>],
    left: &[Option<Name>],
    good: &ValidFrame,
) -> Result<(), NoMemory>
    requires few { i < 10 }
    requires each { length holders.now ≡ length left.now }
    ensures { OnOk result (passes.new ≡ passes.old ++ passes_by queue i holders.now left.now good.now) }
{
    frame_laws();
    add_both(alloc, passes, queue, i, holders, left, good.frame())
}
