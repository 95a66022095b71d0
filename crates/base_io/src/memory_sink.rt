//! A sink that keeps what it took, with writes that fail.

ghost use Rattle.std.specs.Prelude.{◌≡◌, ◌≤◌, ◌<◌, ◌+◌, ◌-◌, ◌++◌, [], length, Some, IfOk, vec_capacity, vec_len};
ghost use Rattle.base_io.specs.Memory.{next_write, after_write};
ghost use Rattle.base_io.specs.Writes.{IsWithin, CountsFault};

use crate::{Put, Sink};
use base::{List, NoMemory};
use std::alloc::Global;
use std::marker::Model;

/// A sink into memory. A clause sees what it took and which writes fail.
#[derive(Drop)]
pub struct MemorySink {
    bytes: Vec<u8>,
    room: usize,
    most: u32,
    failing: List<u32>,
    calls: u32,
    faults: u64,
}

impl Model for MemorySink {
    ghost use Rattle.std.specs.Prelude.{◌≤◌, ◌<◌, vec_capacity, vec_len};
    ghost use Rattle.base_io.specs.Memory.{Store};

    ghost Value = { Store };

    ghost view = { λ s. record { taken = s.bytes.items; room = s.room; most = s.most; failing = s.failing; calls = s.calls; faults = s.faults } };

    ghost invariant = { λ s. (s.room ≤ vec_capacity s.bytes) × (vec_len s.bytes ≤ s.room) × (0 < s.most) };
}

impl MemorySink {
    /// A sink with room for `room` bytes that takes at most `most` of them in a write. The writes listed in `failing`,
    /// counted from 1, fail, and so does a write while the room is full.
    pub fn new(alloc: Global, room: u32, most: u32, failing: List<u32>) -> Result<Self, NoMemory>
        requires { 0 < most }
        ensures taken { IfOk result (λ sink. ⟦<MemorySink as Sink>⟧.taken sink ≡ Some []) }
        ensures faults { IfOk result (λ sink. ⟦<MemorySink as Sink>⟧.faults sink ≡ 0) }
        ensures whole { IfOk result (λ sink. sink ≡ record { taken = []; room = room; most = most; failing = failing; calls = 0; faults = 0 }) }
    {
        Ok(MemorySink {
            bytes: Vec::with_capacity(alloc, room as usize)?,
            room: room as usize,
            most,
            failing,
            calls: 0,
            faults: 0,
        })
    }

    /// The bytes that it took.
    pub fn bytes(&self) -> &[u8]
        ensures { ⟦<MemorySink as Sink>⟧.taken self.now ≡ Some result.now }
    {
        self.bytes.as_slice()
    }
}

impl Sink for MemorySink {
    ghost taken = { λ s. Some s.taken };

    ghost faults = { λ s. s.faults };

    fn write(&mut self, bytes: &[u8]) -> Put
        requires { 0 < length bytes.now }
        ensures within { IsWithin result (length bytes.now) }
        ensures count { CountsFault self.old.faults self.new.faults result }
        ensures result { result ≡ next_write self.old (length bytes.now) }
        ensures after { self.new ≡ after_write self.old bytes.now result }
    {
        self.calls = self.calls.saturating_add(1);
        let full = self.bytes.len() == self.room;
        if full || self.failing.as_slice().contains(&self.calls) {
            self.faults = self.faults.saturating_add(1);
            return Put::Failed;
        }
        let count = bytes
            .len()
            .min(self.room - self.bytes.len())
            .min(self.most as usize);
        append_within(&mut self.bytes, &bytes[..count]);
        Put::Took(count)
    }
}

// Appends bytes for which there is room.
fn append_within(to: &mut Vec<u8>, bytes: &[u8])
    requires { vec_len to.old + length bytes.now ≤ vec_capacity to.old }
    ensures items { to.new.items ≡ to.old.items ++ bytes.now }
    ensures len { vec_len to.new ≡ vec_len to.old + length bytes.now }
    ensures room { vec_capacity to.old ≤ vec_capacity to.new }
{
    if to.extend_from_slice(bytes).is_err() {
        unreachable!();
    }
}
