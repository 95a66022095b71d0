//! Windows fly one after another.

ghost use Rattle.std.specs.Prelude.{◌≡◌, ◌<◌, ◌+◌, ◌*◌, ◌/◌, ℕ, [], Option, IfOk, OnOk, false};
ghost use Rattle.flight.specs.Alone.{IsPersisted};
ghost use Rattle.flight.specs.Flights.{ArePersisted, window_at, window_count};
ghost use Rattle.flight_file.specs.Internal.Flying.{AreWindows, CanRead, FliesOn, IsFlown, IsGathered, Prints, text_before};
ghost use Rattle.flight_file.specs.Flights.{Flies};
ghost use Rattle.frame.specs.Numbered.{numbered};
ghost use Rattle.device_run.specs.FrameRuns.{RunsOn};
ghost use Rattle.device_run.specs.Keepers.{Kept};

use crate::outcome::Outcome;
use crate::persisted::hold;
use crate::plan::FlightPlan;
use crate::print::add_window;
use base::{Event, List, NoMemory, RunOptions, Text};
use base_io::Gate;
use device::Device;
use device_run::{Keep, RanDevice, run_good};
use flight::{Windows, flight_laws};
use frame::ValidFrame;
use std::alloc::Global;
use std::sync::Wait;
use std::thread::Threads;

/// What has flown so far.
#[derive(Drop)]
pub(crate) struct Flying {
    /// What is persisted for each persisting name.
    persisted: List<Option<List<u8>>>,
    text: Text,
    history: List<Event>,
}

#[tactic(auto, using(crate::proofs::Flown::none_flown))]
fn begun(alloc: Global, windows: &Windows<'_>) -> Result<Flying, NoMemory>
    ensures { (tend : Option ℕ) → IfOk result (IsFlown tend windows.now 0 []) }
{
    Ok(Flying {
        persisted: windows.first_persisted(alloc)?,
        text: List::new(alloc),
        history: List::new(alloc),
    })
}

// The device on which window `w` has run, begun with what is persisted.
#[tactic(none)]
fn run_window<R: Threads + Wait + Sync, G: Gate + Sync>(
    rt: &R,
    alloc: Global,
    options: RunOptions,
    windows: &Windows<'_>,
    w: u32,
    persisted: &List<Option<List<u8>>>,
    gate: &G,
) -> Result<RanDevice, NoMemory>
    requires there { w < window_count windows.now.depth windows.now.frames }
    requires persisted { ArePersisted windows.now.frames windows.now.persist persisted.now }
    ensures { IfOk result (RunsOn options.tend false (numbered (window_at windows.now.frames windows.now.persist windows.now.depth persisted.now w))) }
{
    let good = windows.frame(alloc, w, persisted)?;
    run_good(rt, alloc, options, false, &good, gate)
}

// Gathers what window `w` has left on its device.
#[tactic(none)]
fn gather(
    alloc: Global,
    windows: &Windows<'_>,
    frames: &[ValidFrame],
    depth: u32,
    w: u32,
    device: &Device,
    flying: &mut Flying,
) -> Result<(), NoMemory>
    requires windows { AreWindows frames.now depth windows.now }
    requires there { w < window_count windows.now.depth windows.now.frames }
    requires read { CanRead windows.now w flying.old.persisted device.now }
    requires prints { (i : ℕ) → i / windows.now.depth ≡ w → Prints windows.now i device.now }
    requires text { flying.old.text ≡ text_before windows.now (w * windows.now.depth) }
    ensures { OnOk result (IsGathered windows.now w device.now flying.old flying.new) }
{
    add_window(&mut flying.text, windows, frames, depth, w, device)?;
    flying.history.extend_from_slice(device.history())?;
    hold(alloc, windows, w, device, &mut flying.persisted)
}

// Window `w` is compiled and runs on a device of its own, of which is gathered what it has left there.
#[tactic(none)]
fn fly_window<R: Threads + Wait + Sync, G: Gate + Sync>(
    rt: &R,
    alloc: Global,
    plan: &FlightPlan<'_>,
    windows: &Windows<'_>,
    frames: &[ValidFrame],
    w: u32,
    flying: &mut Flying,
    gate: &G,
) -> Result<RanDevice, NoMemory>
    requires windows { AreWindows frames.now plan.now.depth windows.now }
    requires there { w < window_count windows.now.depth windows.now.frames }
    requires persisted { IsPersisted windows.now.frames windows.now.persist (w * windows.now.depth) flying.old.persisted }
    requires text { flying.old.text ≡ text_before windows.now (w * windows.now.depth) }
    ensures { IfOk result (λ device. FliesOn plan.now.options.tend windows.now w device flying.old flying.new) }
{
    flight_laws();
    let _count = windows.count();
    let ran = run_window(rt, alloc, plan.options, windows, w, &flying.persisted, gate)?;
    gather(alloc, windows, frames, plan.depth, w, ran.device(), flying)?;
    Ok(ran)
}

/// Flies all windows, and hands the device of each to the keeper.
pub(crate) fn fly_windows<R: Threads + Wait + Sync, G: Gate + Sync, K: Keep>(
    rt: &R,
    alloc: Global,
    plan: &FlightPlan<'_>,
    windows: &Windows<'_>,
    frames: &[ValidFrame],
    gate: &G,
    keeper: &mut K,
) -> Result<Outcome, NoMemory>
    requires windows { AreWindows frames.now plan.now.depth windows.now }
    ensures { IfOk result (λ outcome. Kept (K.kept keeper.old) (K.kept keeper.new) (λ devices. Flies plan.now.options.tend windows.now.persist windows.now.depth windows.now.frames devices outcome)) }
{
    let mut flying = begun(alloc, windows)?;
    for w in 0..windows.count() {
        let ran = fly_window(rt, alloc, plan, windows, frames, w, &mut flying, gate)?;
        keeper.keep(ran)?;
    }
    let Flying {
        persisted: _,
        text,
        history,
    } = flying;
    Ok(Outcome::Flown { text, history })
}
