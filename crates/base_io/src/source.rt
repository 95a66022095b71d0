//! Where bytes are read from.

ghost use Rattle.std.specs.Prelude.{ℕ, List, ◌<◌, length};

/// What one read gave.
#[derive(Clone, Copy, Debug, PartialEq, Eq)]
pub enum ReadResult {
    /// So many bytes, at least one, at the front of the buffer.
    Got(usize),
    /// Nothing is left.
    End,
    /// The read failed, and the source counted it.
    Failed,
}

/// Bytes to be read, from front to back. A read may give fewer than are asked for, and may fail and be tried again.
pub trait Source {
    ghost use Rattle.std.specs.declared.option.Option.{Option};
    ghost use Rattle.base_io.specs.Reads.{IsWithin, ReadsBytes, CountsFault};

    /// The bytes that are left, where the source tells them.
    ghost left: { Self → Option (List ℕ) };

    /// How often a read has failed. The count stops at the greatest `u64`.
    ghost faults: { Self → ℕ };

    /// Takes the first bytes that are left, as many as it likes but at most as the buffer holds.
    fn read(&mut self, into: &mut [u8]) -> ReadResult
        requires { 0 < length into.old }
        ensures within { IsWithin result (length into.new) }
        ensures bytes { ReadsBytes (left self.old) (left self.new) result into.new }
        ensures count { CountsFault (faults self.old) (faults self.new) result };
}
