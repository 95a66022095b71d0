//! Which windows are more than a frame may be.

ghost use Rattle.std.specs.Prelude.{◌≡◌, ◌<◌, ◌≤◌, ◌+◌, ◌*◌, ◌-◌, ◌/◌, IfOk, length, min};
ghost use Rattle.flight.specs.Flights.{window_at, window_count};
ghost use Rattle.flight.specs.Refusals.{first_too_large, limit_in, too_large, unpersisted};
ghost use Rattle.law_window.specs.InTurn.{frames_in};

use crate::fault::FlightFault;
use crate::window::window;
use base::{Limit, List, Name, NoMemory};
use frame::{Frame, FrameError, ValidFrame, validate_frame};
use std::alloc::Global;

#[tactic(auto, using(crate::proofs::Told::limit_told, crate::proofs::Told::none_told))]
fn limit_in(alloc: Global, frame: Frame) -> Result<Option<Limit>, NoMemory>
    ensures { IfOk result (λ limit. limit ≡ limit_in frame) }
{
    match validate_frame(alloc, frame) {
        Ok(_) => Ok(None),
        Err(FrameError::Refused(fault, _)) => Ok(fault.limit),
        Err(FrameError::NoMemory(_)) => Err(NoMemory),
    }
}

fn unpersisted(alloc: Global, persist: &[Name]) -> Result<List<Option<List<u8>>>, NoMemory>
    ensures persisted { IfOk result (λ persisted. persisted ≡ unpersisted persist.now) }
    ensures each { IfOk result (λ persisted. length persisted ≡ length persist.now) }
{
    let mut persisted = List::new(alloc);
    for _name in persist {
        persisted.push(None)?;
    }
    Ok(persisted)
}

/// How many windows of this depth so many frames make.
pub(crate) fn window_count(depth: u32, frames: usize) -> u32
    requires some { 1 ≤ depth }
    requires few { depth ≤ 8 }
    requires frames { frames ≤ 64 }
    ensures { result ≡ (frames + (depth - 1)) / depth }
{
    (frames as u32 + (depth - 1)) / depth
}

fn smaller(a: usize, b: usize) -> usize
    ensures { result ≡ min a b }
{
    if a < b { a } else { b }
}

/// The frames of window `w`.
#[tactic(auto, using(crate::proofs::Counted::sliced))]
pub(crate) fn frames_of(frames: &[ValidFrame], depth: u32, w: u32) -> &[ValidFrame]
    requires few { length frames.now ≤ 64 }
    requires deep { depth ≤ 8 }
    requires there { w * depth < length frames.now }
    ensures frames { result.now ≡ frames_in depth frames.now w }
    ensures few { length result.now ≤ 8 }
{
    let from = (w * depth) as usize;
    let count = smaller(depth as usize, frames.len() - from);
    &frames[from..from + count]
}

/// Window `w` of these frames, where these bytes are persisted before it.
pub(crate) fn window_at(
    alloc: Global,
    frames: &[ValidFrame],
    persist: &[Name],
    depth: u32,
    persisted: &[Option<List<u8>>],
    w: u32,
) -> Result<Frame, NoMemory>
    requires few { length frames.now ≤ 64 }
    requires deep { depth ≤ 8 }
    requires there { w * depth < length frames.now }
    requires persisted { length persisted.now ≡ length persist.now }
    ensures { IfOk result (λ frame. frame ≡ window_at frames.now persist.now depth persisted.now w) }
{
    let queues = &frames[0].frame().queues;
    window(
        alloc,
        queues,
        frames_of(frames, depth, w),
        persist,
        persisted,
    )
}

fn too_large(
    alloc: Global,
    frames: &[ValidFrame],
    persist: &[Name],
    depth: u32,
    w: u32,
) -> Result<Option<FlightFault>, NoMemory>
    requires few { length frames.now ≤ 64 }
    requires deep { depth ≤ 8 }
    requires there { w * depth < length frames.now }
    ensures { IfOk result (λ fault. fault ≡ too_large frames.now persist.now depth w) }
{
    let persisted = unpersisted(alloc, persist)?;
    let frame = window_at(alloc, frames, persist, depth, &persisted, w)?;
    match limit_in(alloc, frame)? {
        Some(limit) => Ok(Some(FlightFault::Window { window: w, limit })),
        None => Ok(None),
    }
}

/// The first window that breaks a limit.
#[tactic(auto, using(crate::proofs::Counted::large_on, crate::proofs::Counted::large_found, crate::proofs::Counted::large_end, crate::proofs::Counted::there))]
pub(crate) fn first_too_large(
    alloc: Global,
    frames: &[ValidFrame],
    persist: &[Name],
    depth: u32,
) -> Result<Option<FlightFault>, NoMemory>
    requires few { length frames.now ≤ 64 }
    requires some { 1 ≤ depth }
    requires deep { depth ≤ 8 }
    ensures { IfOk result (λ fault. fault ≡ first_too_large frames.now persist.now depth (window_count depth frames.now) 0) }
{
    for w in 0..window_count(depth, frames.len()) {
        if let Some(fault) = too_large(alloc, frames, persist, depth, w)? {
            return Ok(Some(fault));
        }
    }
    Ok(None)
}
