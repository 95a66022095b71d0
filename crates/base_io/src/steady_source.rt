//! Bytes in memory, handed out a few at a time, with reads that never fail.

ghost use Rattle.std.specs.Prelude.{◌≡◌, ◌≤◌, ◌<◌, ◌+◌, ◌-◌, length, drop, Some};
ghost use Rattle.base_io.specs.Memory.{given};
ghost use Rattle.base_io.specs.Reads.{IsWithin, ReadsBytes};

use crate::memory_source::fill_front;
use crate::{ReadResult, Source};
use base::List;
use std::marker::Model;

/// A source over bytes whose count of faults is always 0. A clause sees what is left and how much a read gives.
#[derive(Drop)]
pub struct SteadySource {
    bytes: List<u8>,
    at: usize,
    most: u32,
}

impl Model for SteadySource {
    ghost use Rattle.std.specs.Prelude.{◌≤◌, ◌<◌, length, drop};
    ghost use Rattle.base_io.specs.Memory.{SteadySupply};

    ghost Value = { SteadySupply };

    ghost view = { λ s. record { left = drop s.at s.bytes; most = s.most } };

    ghost invariant = { λ s. (s.at ≤ length s.bytes) × (0 < s.most) };
}

impl SteadySource {
    /// A source of these bytes that gives at most `most` of them in a read.
    pub fn new(bytes: List<u8>, most: u32) -> Self
        requires { 0 < most }
        ensures left { ⟦<SteadySource as Source>⟧.left result ≡ Some bytes }
        ensures whole { result ≡ record { left = bytes; most = most } }
    {
        SteadySource { bytes, at: 0, most }
    }
}

impl Source for SteadySource {
    ghost left = { λ s. Some s.left };

    ghost faults = { λ _. 0 };

    fn read(&mut self, into: &mut [u8]) -> ReadResult
        requires { 0 < length into.old }
        ensures within { IsWithin result (length into.new) }
        ensures bytes { ReadsBytes (Some self.old.left) (Some self.new.left) result into.new }
        ensures result { result ≡ given self.old.left self.old.most (length into.new) }
        ensures most { self.new.most ≡ self.old.most }
    {
        let rest = &self.bytes.as_slice()[self.at..];
        if rest.is_empty() {
            return ReadResult::End;
        }
        let count = fill_front(into, rest, self.most);
        self.at += count;
        ReadResult::Got(count)
    }
}
