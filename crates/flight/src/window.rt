//! A window as one frame.

ghost use Rattle.std.specs.Prelude.{◌≡◌, ◌≤◌, ◌<◌, ◌++◌, IfOk, length};
ghost use Rattle.flight.specs.Internal.Left.{last_left, nothing_left, others_by};
ghost use Rattle.flight.specs.Internal.WindowParts.{all_exports, all_passes, all_resources, resources_by};
ghost use Rattle.flight.specs.Flights.{all_declared, persisted_bytes};
ghost use Rattle.law_window.specs.WindowFrame.{window_frame};

use crate::exports::{all_exports, others};
use crate::holders::{holders_of, left_after, nothing_left};
use crate::passes::add_passes;
use crate::resources::{append, resources_by};
use base::{List, Name, NoMemory};
use frame::{Frame, Pass, QueueDecl, Resource, Spot, ValidFrame};
use std::alloc::Global;

fn resources_of(
    alloc: Global,
    i: usize,
    holders: &[Option<usize>],
    persisted: &[Option<List<u8>>],
    left: &[Option<Name>],
    good: &ValidFrame,
) -> Result<List<Resource>, NoMemory>
    requires few { i < 10 }
    requires persisted { length holders.now ≡ length persisted.now }
    requires left { length holders.now ≡ length left.now }
    ensures { IfOk result (λ all. all ≡ resources_by i holders.now persisted.now left.now good.now.resources) }
{
    resources_by(alloc, i, holders, persisted, left, &good.frame().resources)
}

#[tactic(auto, using(crate::proofs::Frames::resources_on, crate::proofs::Frames::resources_end))]
fn all_resources(
    alloc: Global,
    frames: &[ValidFrame],
    persist: &[Name],
    persisted: &[Option<List<u8>>],
) -> Result<List<Resource>, NoMemory>
    requires few { length frames.now ≤ 8 }
    requires persisted { length persisted.now ≡ length persist.now }
    ensures { IfOk result (λ resources. resources ≡ all_resources persist.now persisted.now 0 (nothing_left persist.now) frames.now) }
{
    let mut resources = List::new(alloc);
    let mut left = nothing_left(alloc, persist)?;
    for (i, good) in frames.iter().enumerate() {
        let holders = holders_of(alloc, persist, good)?;
        let more = resources_of(alloc, i, &holders, persisted, &left, good)?;
        append(&mut resources, more)?;
        left = left_after(alloc, i, &holders, &left)?;
    }
    Ok(resources)
}

#[tactic(auto, using(crate::proofs::Frames::passes_on, crate::proofs::Frames::passes_end))]
fn all_passes(
    alloc: Global,
    queue: Name,
    frames: &[ValidFrame],
    persist: &[Name],
) -> Result<List<Pass>, NoMemory>
    requires { length frames.now ≤ 8 }
    ensures { IfOk result (λ passes. passes ≡ all_passes queue persist.now 0 (nothing_left persist.now) frames.now) }
{
    let mut passes = List::new(alloc);
    let mut left = nothing_left(alloc, persist)?;
    for (i, good) in frames.iter().enumerate() {
        let holders = holders_of(alloc, persist, good)?;
        add_passes(alloc, &mut passes, queue, i, &holders, &left, good)?;
        left = left_after(alloc, i, &holders, &left)?;
    }
    Ok(passes)
}

#[tactic(auto, using(crate::proofs::Frames::left_on, crate::proofs::Frames::left_end))]
fn last_left(
    alloc: Global,
    frames: &[ValidFrame],
    persist: &[Name],
) -> Result<List<Option<Name>>, NoMemory>
    requires { length frames.now ≤ 8 }
    ensures { IfOk result (λ left. left ≡ last_left persist.now 0 (nothing_left persist.now) frames.now) }
{
    let mut left = nothing_left(alloc, persist)?;
    for (i, good) in frames.iter().enumerate() {
        let holders = holders_of(alloc, persist, good)?;
        left = left_after(alloc, i, &holders, &left)?;
    }
    Ok(left)
}

fn exports(alloc: Global, frames: &[ValidFrame], persist: &[Name]) -> Result<List<Spot>, NoMemory>
    requires { length frames.now ≤ 8 }
    ensures { IfOk result (λ exports. exports ≡ all_exports 0 frames.now ++ others_by (all_exports 0 frames.now) (last_left persist.now 0 (nothing_left persist.now) frames.now)) }
{
    let left = last_left(alloc, frames, persist)?;
    let mut exports = all_exports(alloc, frames)?;
    let others = others(alloc, &exports, &left)?;
    exports.extend_from_slice(&others)?;
    Ok(exports)
}

/// The window of these frames over these queues. The first of them begins with the persisted bytes.
pub(crate) fn window(
    alloc: Global,
    queues: &List<QueueDecl>,
    frames: &[ValidFrame],
    persist: &[Name],
    persisted: &[Option<List<u8>>],
) -> Result<Frame, NoMemory>
    requires queue { 0 < length queues.now }
    requires few { length frames.now ≤ 8 }
    requires persisted { length persisted.now ≡ length persist.now }
    ensures { IfOk result (λ frame. frame ≡ window_frame queues.now (all_declared frames.now persist.now) (persisted_bytes persisted.now)) }
{
    let queue = queues[0].name;
    Ok(Frame {
        queues: queues.copy(alloc)?,
        resources: all_resources(alloc, frames, persist, persisted)?,
        passes: all_passes(alloc, queue, frames, persist)?,
        exports: exports(alloc, frames, persist)?,
    })
}
