//! Calls of a table, drawn by a tender.

ghost use Rattle.std.specs.Prelude.{◌≡◌};
ghost use Rattle.device_cache.specs.Lines.{range};

use base::{CacheMove, MemoryRange, MoveKind};

#[derive(Clone, Copy)]
pub(crate) enum Call {
    Put,
    WriteBack,
    Fill,
    DropClean,
    Junk,
    WriteBackAll,
    DropCleanAll,
}

/// A call and its range.
#[derive(Clone, Copy)]
pub(crate) struct Step {
    pub call: Call,
    pub agent: u32,
    pub memory: u32,
    pub start: u32,
    pub len: u32,
}

impl Step {
    /// The move that a tender drew.
    pub(crate) fn of(cache_move: CacheMove) -> Step
        ensures agent { result.agent ≡ cache_move.agent }
        ensures range { range result.memory result.start result.len ≡ cache_move.range }
    {
        let MemoryRange { memory, start, len } = cache_move.range;
        let call = match cache_move.kind {
            MoveKind::WriteBack => Call::WriteBack,
            MoveKind::Fill => Call::Fill,
            MoveKind::DropLine => Call::DropClean,
        };
        Step {
            call,
            agent: cache_move.agent,
            memory,
            start,
            len,
        }
    }

    /// A store in the place of a write-back or fill, and junk in the place of a drop.
    pub(crate) fn storing(self) -> Step
        ensures agent { result.agent ≡ self.agent }
        ensures memory { result.memory ≡ self.memory }
        ensures start { result.start ≡ self.start }
        ensures len { result.len ≡ self.len }
    {
        let call = match self.call {
            Call::DropClean => Call::Junk,
            _ => Call::Put,
        };
        Step {
            call,
            agent: self.agent,
            memory: self.memory,
            start: self.start,
            len: self.len,
        }
    }

    /// A write-back or drop of all lines of the agent, in the place of one of a range.
    pub(crate) fn everywhere(self) -> Step
        ensures agent { result.agent ≡ self.agent }
        ensures memory { result.memory ≡ self.memory }
        ensures start { result.start ≡ self.start }
        ensures len { result.len ≡ self.len }
    {
        let call = match self.call {
            Call::WriteBack => Call::WriteBackAll,
            Call::DropClean => Call::DropCleanAll,
            call => call,
        };
        Step {
            call,
            agent: self.agent,
            memory: self.memory,
            start: self.start,
            len: self.len,
        }
    }

    /// The byte that the step stores at place k of its range.
    pub(crate) fn byte(self, k: u32) -> u8 {
        let sum = self
            .start
            .wrapping_add(self.len.wrapping_mul(3))
            .wrapping_add(k);
        (sum % 256) as u8
    }
}
