//! Taps are told events, and those that finish are moved away.

ghost use Rattle.std.specs.Prelude.{◌≡◌, ◌<◌, ◌≤◌, ◌+◌, [], ◌∷◌, ◌++◌, take, drop, vec_len, vec_capacity};
ghost use Rattle.std.specs.List.{HoldsAt};
ghost use Rattle.base_io.specs.Internal.Serves.{ServesAt};
ghost use Rattle.base_io.specs.Served.{AreServed, IsServed};

use crate::{Tap, Tell};
use base::Event;

// Tells each event, until the tap is finished, and answers whether it is.
fn serve(tap: &mut dyn Tap, events: &[Event]) -> bool
    ensures { IsServed (heard tap.old) (heard tap.new) (finished tap.new) events.now result }
{
    for event in events {
        if tap.told(event) == Tell::Finished {
            return true;
        }
    }
    false
}

fn serve_box(tap: &mut Box<dyn Tap>, events: &[Event]) -> bool
    ensures { IsServed (heard tap.old) (heard tap.new) (finished tap.new) events.now result }
{
    serve(&mut **tap, events)
}

fn serve_at(taps: &mut Vec<Box<dyn Tap>>, at: usize, events: &[Event]) -> bool
    requires { at < vec_len taps.old }
    ensures { ServesAt (λ b. heard b) (λ b. finished b) events.now taps.old.items at taps.new.items result }
{
    serve_box(&mut taps[at], events)
}

// Moves an item to the end of another vector, which has room.
fn move_item<T: Drop>(from: &mut Vec<T>, at: usize, to: &mut Vec<T>)
    requires at { at < vec_len from.old }
    requires room { vec_len to.old < vec_capacity to.old }
    ensures from { from.new.items ≡ take at from.old.items ++ drop (at + 1) from.old.items }
    ensures to { HoldsAt (λ x. to.new.items ≡ to.old.items ++ x ∷ []) from.old.items at }
    ensures room { vec_capacity to.old ≤ vec_capacity to.new }
    ensures len { vec_len to.new ≡ vec_len to.old + 1 }
{
    let item = from.remove(at);
    if to.push(item).is_err() {
        unreachable!();
    }
}

fn push_within(places: &mut Vec<usize>, place: usize)
    requires { vec_len places.old < vec_capacity places.old }
    ensures items { places.new.items ≡ places.old.items ++ place ∷ [] }
    ensures room { vec_capacity places.old ≤ vec_capacity places.new }
    ensures len { vec_len places.new ≡ vec_len places.old + 1 }
{
    if places.push(place).is_err() {
        unreachable!();
    }
}

/// Serves the taps one after another, each from the first event on. Those that finish are moved to `spent`, with their places.
pub fn serve_all(
    taps: &mut Vec<Box<dyn Tap>>,
    spent: &mut Vec<Box<dyn Tap>>,
    places: &mut Vec<usize>,
    events: &[Event],
)
    requires no_spent { spent.old.items ≡ [] }
    requires no_places { places.old.items ≡ [] }
    requires spent_room { vec_len taps.old ≤ vec_capacity spent.old }
    requires places_room { vec_len taps.old ≤ vec_capacity places.old }
    ensures { AreServed (λ b. heard b) (λ b. finished b) events.now taps.old.items taps.new.items spent.new.items places.new.items }
{
    let count = taps.len();
    let mut at = 0;
    for place in 0..count {
        if serve_at(taps, at, events) {
            move_item(taps, at, spent);
            push_within(places, place);
        } else {
            at += 1;
        }
    }
}
