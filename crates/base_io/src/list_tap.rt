//! A tap that keeps what it hears.

ghost use Rattle.std.specs.Prelude.{◌≡◌, ◌≤◌, ◌↔◌, ◌++◌, ◌∷◌, [], true, false, vec_len, vec_capacity, IfOk, Some};
ghost use Rattle.base_io.specs.Listed.{hearing};

use crate::{Tap, Tell};
use base::{Event, NoMemory};
use std::alloc::Global;
use std::marker::Model;

/// Keeps events while there is room for them. Told one more it is finished, and stays so.
#[derive(Drop)]
pub struct ListTap {
    events: Vec<Event>,
    room: u32,
    done: bool,
    ghost fits: { room ≤ vec_capacity events },
    ghost full: { done ≡ true → room ≤ vec_len events },
}

impl Model for ListTap {
    ghost use Rattle.base_io.specs.Listed.{Listed};

    ghost Value = { Listed };

    ghost view = { λ t. record { events = t.events.items; room = t.room; done = t.done } };
}

impl ListTap {
    /// With room for so many events.
    pub fn new(alloc: Global, room: u32) -> Result<ListTap, NoMemory>
        ensures { IfOk result (λ tap. tap ≡ record { events = []; room = room; done = false }) }
    {
        Ok(ListTap {
            events: Vec::with_capacity(alloc, room as usize)?,
            room,
            done: false,
        })
    }

    /// What it heard.
    pub fn events(&self) -> &[Event]
        ensures { result.now ≡ self.now.events }
    {
        &self.events
    }
}

impl Tap for ListTap {
    ghost heard = { λ t. Some t.events };

    ghost finished = { λ t. t.done ≡ true };

    fn told(&mut self, event: &Event) -> Tell
        ensures hearing { self.new ≡ hearing self.old event.now }
        ensures more { result ≡ Tell.More → self.new.events ≡ self.old.events ++ event.now ∷ [] }
        ensures finished { (result ≡ Tell.Finished) ↔ (self.new.done ≡ true) }
        ensures rest { result ≡ Tell.Finished → self.new.events ≡ self.old.events }
    {
        if self.events.len() < self.room as usize {
            self.events.push_reserved(*event);
            return Tell::More;
        }
        self.done = true;
        Tell::Finished
    }
}
