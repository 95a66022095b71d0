//! A file with one frame on each line flies.

ghost use Rattle.std.specs.Prelude.{◌≡◌, ◌<◌, ◌≤◌, IfOk, length, map};
ghost use Rattle.flight_file.specs.Internal.Reading.{FliesLines};
ghost use Rattle.flight_file.specs.Flights.{FliesFile, FliesFrames};
ghost use Rattle.flight_file.specs.Files.{unless_refused};
ghost use Rattle.flight_file.specs.Plans.{CanFly};
ghost use Rattle.flight_file.specs.declared.outcome.Outcome.TheVariants as outcomes;
ghost use Rattle.flight_file.specs.Texts.{refusal_text};
ghost use Rattle.device_run.specs.Keepers.{Kept};

use crate::flying::fly_windows;
use crate::frames::{FlightFileError, frames_of};
use crate::lines::lines_of;
use crate::outcome::Outcome;
use crate::plan::FlightPlan;
use crate::refusal::{Refusal, refusal_text};
use base::NoMemory;
use base_io::Gate;
use device_run::Keep;
use flight::{FlightError, windows_of};
use frame::ValidFrame;
use std::alloc::Global;
use std::sync::Wait;
use std::thread::Threads;

fn refused(alloc: Global, refusal: &Refusal) -> Result<Outcome, NoMemory>
    ensures { IfOk result (λ outcome. outcome ≡ outcomes.Refused (refusal_text refusal.now)) }
{
    Ok(Outcome::Refused {
        text: refusal_text(alloc, refusal)?,
    })
}

#[tactic(auto, using(crate::proofs::Outcomes::frames_fly, crate::proofs::Outcomes::frames_refused))]
fn fly_frames<R: Threads + Wait + Sync, G: Gate + Sync, K: Keep>(
    rt: &R,
    alloc: Global,
    plan: &FlightPlan<'_>,
    frames: &[ValidFrame],
    gate: &G,
    keeper: &mut K,
) -> Result<Outcome, NoMemory>
    requires plan { CanFly plan.now }
    requires some { 0 < length frames.now }
    requires few { length frames.now ≤ 64 }
    ensures { IfOk result (λ outcome. Kept (K.kept keeper.old) (K.kept keeper.new) (λ devices. FliesFrames plan.now.options.tend plan.now.persist.now plan.now.depth (unless_refused plan.now.persist.now plan.now.depth frames.now) devices outcome)) }
{
    match windows_of(alloc, frames, plan.persist, plan.depth) {
        Ok(windows) => fly_windows(rt, alloc, plan, &windows, frames, gate, keeper),
        Err(FlightError::Refused(fault)) => refused(alloc, &Refusal::Flight(fault)),
        Err(FlightError::NoMemory) => Err(NoMemory),
    }
}

#[tactic(auto, using(crate::proofs::Outcomes::lines_fly, crate::proofs::Outcomes::lines_refused))]
fn fly_lines<R: Threads + Wait + Sync, G: Gate + Sync, K: Keep>(
    rt: &R,
    alloc: Global,
    plan: &FlightPlan<'_>,
    lines: &[&[u8]],
    gate: &G,
    keeper: &mut K,
) -> Result<Outcome, NoMemory>
    requires plan { CanFly plan.now }
    requires some { 1 ≤ length lines.now }
    requires few { length lines.now ≤ 64 }
    ensures { IfOk result (λ outcome. Kept (K.kept keeper.old) (K.kept keeper.new) (λ devices. FliesLines plan.now.options.tend plan.now.persist.now plan.now.depth (map (λ line. line.now) lines.now) devices outcome)) }
{
    match frames_of(alloc, lines) {
        Ok(frames) => fly_frames(rt, alloc, plan, &frames, gate, keeper),
        Err(FlightFileError::Refused(refusal)) => refused(alloc, &refusal),
        Err(FlightFileError::NoMemory) => Err(NoMemory),
    }
}

#[tactic(auto, using(crate::proofs::Outcomes::file_flies, crate::proofs::Outcomes::file_refused))]
/// What a file with one frame on each line comes to: its frames are compiled together, at most as many at a time as the plan
/// says, and run on a device for each window, with its workers and the cache moves of its seed. The bytes under its persisting
/// names go from each frame to the next. The keeper is handed each window's device once it has run, window by window; of a file
/// that is refused none.
pub fn fly_file<R: Threads + Wait + Sync, G: Gate + Sync, K: Keep>(
    rt: &R,
    alloc: Global,
    plan: &FlightPlan<'_>,
    bytes: &[u8],
    gate: &G,
    keeper: &mut K,
) -> Result<Outcome, NoMemory>
    requires plan { CanFly plan.now }
    ensures { IfOk result (λ outcome. Kept (K.kept keeper.old) (K.kept keeper.new) (λ devices. FliesFile plan.now.options.tend plan.now.persist.now plan.now.depth bytes.now devices outcome)) }
{
    match lines_of(alloc, bytes)? {
        Some(lines) => fly_lines(rt, alloc, plan, lines.as_slice(), gate, keeper),
        None => refused(alloc, &Refusal::Count),
    }
}
