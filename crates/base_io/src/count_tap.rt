//! A tap that counts.

ghost use Rattle.std.specs.Prelude.{◌≡◌, ◌+◌, ◌-◌, ◌^◌, min, None};

use crate::{Tap, Tell};
use base::Event;
use std::marker::Model;

/// Counts the events up to the greatest `u64`, keeps none and is never finished. A clause sees the count.
#[derive(Drop)]
pub struct CountTap {
    count: u64,
}

impl Model for CountTap {
    ghost use Rattle.std.specs.Prelude.{ℕ};

    ghost Value = { ℕ };

    ghost view = { λ t. t.count };
}

impl CountTap {
    pub fn new() -> Self
        ensures { result ≡ 0 }
    {
        CountTap { count: 0 }
    }

    pub fn count(&self) -> u64
        ensures { result ≡ self.now }
    {
        self.count
    }
}

impl Tap for CountTap {
    ghost heard = { λ _. None };

    ghost finished = { λ _. ⊥ };

    fn told(&mut self, _event: &Event) -> Tell
        ensures more { result ≡ Tell.More }
        ensures count { self.new ≡ min (self.old + 1) (2 ^ 64 - 1) }
    {
        self.count = self.count.saturating_add(1);
        Tell::More
    }
}
