//! Where bytes are written to.

ghost use Rattle.std.specs.Prelude.{ℕ, List, ◌<◌, length};

/// What one write did.
#[derive(Clone, Copy, Debug, PartialEq, Eq)]
pub enum Put {
    /// The first so many bytes were taken, at least one.
    Took(usize),
    /// The write failed and took nothing, and the sink counted it.
    Failed,
}

/// A place for bytes, which stand in the order in which they are written. A write may take fewer than it is given, and
/// may fail and be tried again.
pub trait Sink {
    ghost use Rattle.std.specs.declared.option.Option.{Option};
    ghost use Rattle.base_io.specs.Writes.{IsWithin, PutsBytes, CountsFault};

    /// The bytes that were taken so far, where the sink tells them.
    ghost taken: { Self → Option (List ℕ) };

    /// How often a write has failed. The count stops at the greatest `u64`.
    ghost faults: { Self → ℕ };

    /// Takes the first bytes, as many as it likes.
    fn write(&mut self, bytes: &[u8]) -> Put
        requires { 0 < length bytes.now }
        ensures within { IsWithin result (length bytes.now) }
        ensures bytes { PutsBytes (taken self.old) (taken self.new) result bytes.now }
        ensures count { CountsFault (faults self.old) (faults self.new) result };
}
