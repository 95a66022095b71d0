//! Bytes in memory, handed out a few at a time, with reads that fail.

ghost use Rattle.std.specs.Prelude.{◌≡◌, ◌≤◌, ◌<◌, ◌+◌, ◌-◌, min, length, take, drop, Some};
ghost use Rattle.base_io.specs.Memory.{next_read, after_read};
ghost use Rattle.base_io.specs.Reads.{IsWithin, ReadsBytes, CountsFault};

use crate::{ReadResult, Source};
use base::List;
use std::marker::Model;

/// A source over bytes. A clause sees what is left and which reads fail.
#[derive(Drop)]
pub struct MemorySource {
    bytes: List<u8>,
    at: usize,
    most: u32,
    failing: List<u32>,
    calls: u32,
    faults: u64,
}

impl Model for MemorySource {
    ghost use Rattle.std.specs.Prelude.{◌≤◌, ◌<◌, length, drop};
    ghost use Rattle.base_io.specs.Memory.{Supply};

    ghost Value = { Supply };

    ghost view = { λ s. record { left = drop s.at s.bytes; most = s.most; failing = s.failing; calls = s.calls; faults = s.faults } };

    ghost invariant = { λ s. (s.at ≤ length s.bytes) × (0 < s.most) };
}

impl MemorySource {
    /// A source of these bytes that gives at most `most` of them in a read. The reads listed in `failing`, counted
    /// from 1, fail.
    pub fn new(bytes: List<u8>, most: u32, failing: List<u32>) -> Self
        requires { 0 < most }
        ensures left { ⟦<MemorySource as Source>⟧.left result ≡ Some bytes }
        ensures faults { ⟦<MemorySource as Source>⟧.faults result ≡ 0 }
        ensures whole { result ≡ record { left = bytes; most = most; failing = failing; calls = 0; faults = 0 } }
    {
        MemorySource {
            bytes,
            at: 0,
            most,
            failing,
            calls: 0,
            faults: 0,
        }
    }
}

impl Source for MemorySource {
    ghost left = { λ s. Some s.left };

    ghost faults = { λ s. s.faults };

    fn read(&mut self, into: &mut [u8]) -> ReadResult
        requires { 0 < length into.old }
        ensures within { IsWithin result (length into.new) }
        ensures bytes { ReadsBytes (Some self.old.left) (Some self.new.left) result into.new }
        ensures count { CountsFault self.old.faults self.new.faults result }
        ensures result { result ≡ next_read self.old (length into.new) }
        ensures after { self.new ≡ after_read self.old result }
    {
        self.calls = self.calls.saturating_add(1);
        if self.failing.as_slice().contains(&self.calls) {
            self.faults = self.faults.saturating_add(1);
            return ReadResult::Failed;
        }
        let rest = &self.bytes.as_slice()[self.at..];
        if rest.is_empty() {
            return ReadResult::End;
        }
        let count = fill_front(into, rest, self.most);
        self.at += count;
        ReadResult::Got(count)
    }
}

/// Copies the first bytes of `rest`, as many as there is room for and at most `most`.
pub(crate) fn fill_front(into: &mut [u8], rest: &[u8], most: u32) -> usize
    requires into { 0 < length into.old }
    requires rest { 0 < length rest.now }
    requires most { 0 < most }
    ensures some { 0 < result }
    ensures count { result ≡ min (min (length into.new) (length rest.now)) most }
    ensures front { take result into.new ≡ take result rest.now }
{
    let count = into.len().min(rest.len()).min(most as usize);
    into[..count].copy_from_slice(&rest[..count]);
    count
}
