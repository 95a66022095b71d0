//! Which frames do not fly together.

ghost use Rattle.std.specs.Prelude.{◌≡◌, ◌<◌, ◌≤◌, length, None, Some};
ghost use Rattle.base.specs.Walks.{first_in};
ghost use Rattle.flight.specs.Flights.{size_at, size_in};
ghost use Rattle.flight.specs.Refusals.{first_lost, is_persisted, lost_at, lost_in, other_at, other_queues, persists, same_family, same_queue, same_queues};

use crate::fault::FlightFault;
use crate::holders::holder_in;
use crate::joins::size_of;
use base::{Family, Name};
use frame::{QueueDecl, Resource, ValidFrame, frame_laws};

fn same_family(a: Family, b: Family) -> bool
    ensures { result ≡ same_family a b }
{
    a == b
}

fn same_queue(a: QueueDecl, b: QueueDecl) -> bool
    ensures { result ≡ same_queue a b }
{
    a.name == b.name && same_family(a.family, b.family)
}

#[tactic(auto, using(crate::proofs::Queues::same_on, crate::proofs::Queues::other_on, crate::proofs::Queues::same_end, crate::proofs::Queues::other_length))]
fn same_queues(a: &[QueueDecl], b: &[QueueDecl]) -> bool
    ensures { result ≡ same_queues a.now b.now }
{
    if a.len() != b.len() {
        return false;
    }
    for i in 0..a.len() {
        if !same_queue(a[i], b[i]) {
            return false;
        }
    }
    true
}

fn other_at(queues: &[QueueDecl], i: usize, good: &ValidFrame) -> Option<FlightFault>
    requires { i < 64 }
    ensures { result ≡ other_at queues.now i good.now }
{
    if same_queues(queues, &good.frame().queues) {
        return None;
    }
    Some(FlightFault::Queues { frame: i as u32 })
}

/// The first frame that has other queues than these.
#[tactic(auto, using(base::proofs::Walks::first_on, base::proofs::Walks::found_on))]
pub(crate) fn other_queues(queues: &[QueueDecl], frames: &[ValidFrame]) -> Option<FlightFault>
    requires { length frames.now ≤ 64 }
    ensures { result ≡ first_in (other_at queues.now) 0 frames.now }
{
    for (i, good) in frames.iter().enumerate() {
        if let Some(fault) = other_at(queues, i, good) {
            return Some(fault);
        }
    }
    None
}

fn size_at(good: &ValidFrame, name: Name) -> Option<u32>
    ensures { result ≡ size_at name 0 good.now }
{
    frame_laws();
    let frame = good.frame();
    match holder_in(&frame.resources, name) {
        Some(k) => Some(size_of(&frame.resources, k)),
        None => None,
    }
}

#[tactic(auto, using(base::proofs::Walks::first_on, base::proofs::Walks::found_on))]
fn size_in(frames: &[ValidFrame], name: Name) -> Option<u32>
    ensures { result ≡ size_in frames.now name }
{
    for (i, good) in frames.iter().enumerate() {
        if let Some(size) = size_at(good, name) {
            return Some(size);
        }
    }
    None
}

fn is_persisted(size: u32, resource: &Resource) -> bool
    ensures { result ≡ is_persisted size resource.now }
{
    resource.import.is_some() && resource.shape.bytes() == size as u128
}

#[tactic(auto, using(crate::proofs::Queues::held_at))]
fn persists(frames: &[ValidFrame], good: &ValidFrame, name: Name) -> bool
    ensures { result ≡ persists frames.now good.now name }
{
    let frame = good.frame();
    match holder_in(&frame.resources, name) {
        Some(k) => is_persisted(size_in(frames, name).unwrap_or(0), &frame.resources[k]),
        None => true,
    }
}

fn lost_at(frames: &[ValidFrame], i: usize, good: &ValidFrame, name: Name) -> Option<FlightFault>
    requires { i < 64 }
    ensures { result ≡ lost_at frames.now i good.now 0 name }
{
    if persists(frames, good, name) {
        return None;
    }
    Some(FlightFault::Persist {
        frame: i as u32,
        name,
    })
}

#[tactic(auto, using(base::proofs::Walks::first_on, base::proofs::Walks::found_on))]
fn lost_in(
    frames: &[ValidFrame],
    persist: &[Name],
    i: usize,
    good: &ValidFrame,
) -> Option<FlightFault>
    requires { i < 64 }
    ensures { result ≡ lost_in frames.now persist.now i good.now }
{
    for (k, name) in persist.iter().enumerate() {
        if let Some(fault) = lost_at(frames, i, good, *name) {
            return Some(fault);
        }
    }
    None
}

/// The first frame that has a persisting name for what does not persist.
#[tactic(auto, using(base::proofs::Walks::first_on, base::proofs::Walks::found_on))]
pub(crate) fn first_lost(frames: &[ValidFrame], persist: &[Name]) -> Option<FlightFault>
    requires { length frames.now ≤ 64 }
    ensures { result ≡ first_lost frames.now persist.now }
{
    for (i, good) in frames.iter().enumerate() {
        if let Some(fault) = lost_in(frames, persist, i, good) {
            return Some(fault);
        }
    }
    None
}
