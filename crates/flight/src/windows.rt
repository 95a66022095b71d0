//! Frames in windows of one depth.

ghost use Rattle.std.specs.Prelude.{◌≡◌, ◌<◌, ◌≤◌, ◌/◌, ℕ, List, Option, IfErr, IfOk, IfSome, None, is_some, length, slice_get};
ghost use Rattle.std.specs.List.{All, list_any};
ghost use Rattle.flight.specs.Alone.{IsPersisted};
ghost use Rattle.flight.specs.Exported.{export_place, has_name, persisted_export};
ghost use Rattle.flight.specs.Flights.{ArePersisted, window_at, window_count};
ghost use Rattle.flight.specs.Fly.{EndsAs, Fly};
ghost use Rattle.flight.specs.Refusals.{first_refusal};
ghost use Rattle.frame.specs.FirstFault.{first_fault};
ghost use Rattle.frame.specs.Numbered.{numbered};
ghost use Rattle.frame.specs.Repeats.{first_repeat};
ghost use Rattle.law_window.specs.InTurn.{frames_in};

use crate::begun::first_bytes;
use crate::fault::{FlightError, FlightFault};
use crate::limits::{first_too_large, window_at, window_count};
use crate::reading::{export_place, persisted_export};
use crate::refusals::{first_lost, other_queues};
use base::{List, Name, NoMemory};
use frame::{ValidFrame, faultless};
use std::alloc::Global;
use std::marker::Model;

/// Frames that are compiled together, so many at a time, with buffers whose bytes persist from one frame to the next under
/// names. A window is one frame that is made of its frames.
#[derive(Drop)]
pub struct Windows<'a> {
    frames: &'a [ValidFrame],
    persist: &'a [Name],
    depth: u32,
}

impl<'a> Model for Windows<'a> {
    ghost use Rattle.flight.specs.Internal.Inside.{IsFlying, flight_in};
    ghost use Rattle.flight.specs.Flight.{Flight};

    ghost Value = { Flight };

    ghost view = { flight_in };

    ghost invariant = { IsFlying };
}

// The first reason not to fly.
#[tactic(auto, using(crate::proofs::Flies::first_queues))]
fn first_refusal(
    alloc: Global,
    frames: &[ValidFrame],
    persist: &[Name],
    depth: u32,
) -> Result<Option<FlightFault>, NoMemory>
    requires some { 0 < length frames.now }
    requires few { length frames.now ≤ 64 }
    requires deep { 1 ≤ depth }
    requires shallow { depth ≤ 8 }
    ensures { IfOk result (λ fault. fault ≡ first_refusal frames.now persist.now depth) }
{
    if let Some(fault) = other_queues(&frames[0].frame().queues, frames) {
        return Ok(Some(fault));
    }
    if let Some(fault) = first_lost(frames, persist) {
        return Ok(Some(fault));
    }
    first_too_large(alloc, frames, persist, depth)
}

// A frame that was judged has no fault.
#[tactic(auto, using(crate::proofs::Flies::good_on, crate::proofs::Flies::good_end))]
fn all_good(frames: &[ValidFrame])
    ensures { All (λ frame. first_fault frame ≡ None) frames.now }
{
    for (i, good) in frames.iter().enumerate() {
        good.frame();
    }
}

/// The windows of these frames, or why they do not fly together: the first frame with other queues than the first one; else
/// the first frame with a persisting name for what is no import, or for one of another size than in the first frame that has
/// the name; else the first window that is more than a frame may be. A depth is a number of frames.
pub fn windows_of<'a>(
    alloc: Global,
    frames: &'a [ValidFrame],
    persist: &'a [Name],
    depth: u32,
) -> Result<Windows<'a>, FlightError>
    requires some { 0 < length frames.now }
    requires few { length frames.now ≤ 64 }
    requires deep { 1 ≤ depth }
    requires shallow { depth ≤ 8 }
    requires names { length persist.now ≤ 16 }
    requires different { first_repeat persist.now ≡ None }
    ensures fly { IfOk result (λ windows. Fly frames.now persist.now depth) }
    ensures windows { IfOk result (λ windows. windows ≡ record { frames = frames.now; persist = persist.now; depth = depth }) }
    ensures refused { IfErr result (λ end. EndsAs (first_refusal frames.now persist.now depth) end) }
{
    if let Some(fault) = first_refusal(alloc, frames, persist, depth)? {
        return Err(FlightError::Refused(fault));
    }
    all_good(frames);
    Ok(Windows {
        frames,
        persist,
        depth,
    })
}

impl<'a> Windows<'a> {
    /// The number of windows.
    pub fn count(&self) -> u32
        ensures count { result ≡ window_count self.now.depth self.now.frames }
        ensures fly { Fly self.now.frames self.now.persist self.now.depth }
    {
        window_count(self.depth, self.frames.len())
    }

    /// What is persisted before the first window: for each persisting name the import of the first frame that has the name.
    #[tactic(auto, using(crate::proofs::Begins::held_first))]
    pub fn first_persisted(&self, alloc: Global) -> Result<List<Option<List<u8>>>, NoMemory>
        ensures { IfOk result (IsPersisted self.now.frames self.now.persist 0) }
    {
        first_bytes(alloc, self.frames, self.persist)
    }

    /// Window `w`, where these bytes are persisted before it: for each persisting name as many as it has in the frames, and none
    /// where no frame has it. No rule is judged a second time.
    #[tactic(auto, using(crate::proofs::Counted::there))]
    pub fn frame(
        &self,
        alloc: Global,
        w: u32,
        persisted: &[Option<List<u8>>],
    ) -> Result<ValidFrame, NoMemory>
        requires there { w < window_count self.now.depth self.now.frames }
        requires persisted { ArePersisted self.now.frames self.now.persist persisted.now }
        ensures { IfOk result (λ good. good ≡ window_at self.now.frames self.now.persist self.now.depth persisted.now w) }
    {
        let frame = window_at(alloc, self.frames, self.persist, self.depth, persisted, w)?;
        faultless(alloc, frame)
    }

    /// The place of the frame's export `k` among what its window exports. Units are counted, so each layer of an exported image
    /// is an export.
    #[tactic(auto, using(crate::proofs::Read::export_inside, crate::proofs::Read::export_small))]
    pub fn export(&self, frame: u32, k: u32) -> u32
        requires there { frame < length self.now.frames }
        requires exports { IfSome (slice_get self.now.frames frame) (λ f. k < length (numbered f).exports) }
        ensures place { result ≡ export_place self.now.frames self.now.depth frame k }
        ensures within { (persisted : List (Option (List ℕ))) → ArePersisted self.now.frames self.now.persist persisted → result < length (numbered (window_at self.now.frames self.now.persist self.now.depth persisted (frame / self.now.depth))).exports }
    {
        export_place(self.frames, self.depth, frame, k)
    }

    /// The place of persisting name `k` among what window `w` exports; none exactly where no frame of the window has the name.
    #[tactic(auto, using(crate::proofs::Counted::there, crate::proofs::Read::hold_inside))]
    pub fn holds(&self, w: u32, k: u32) -> Option<u32>
        requires there { w < window_count self.now.depth self.now.frames }
        requires name { k < length self.now.persist }
        ensures place { result ≡ persisted_export self.now.frames self.now.persist self.now.depth w k }
        ensures there { IfSome (slice_get self.now.persist k) (λ name. is_some result ≡ list_any (has_name name) (frames_in self.now.depth self.now.frames w)) }
        ensures within { (persisted : List (Option (List ℕ))) → ArePersisted self.now.frames self.now.persist persisted → IfSome result (λ place. place < length (numbered (window_at self.now.frames self.now.persist self.now.depth persisted w)).exports) }
    {
        persisted_export(self.frames, self.persist, self.depth, w, k)
    }
}
