//! A writer of std as a sink.

ghost use Rattle.std.specs.Prelude.{◌≡◌, ◌<◌, length};
ghost use Rattle.base_io.specs.Memory.{one_fault_more};
ghost use Rattle.base_io.specs.Writes.{IsWithin, PutsBytes, CountsFault};
ghost use Rattle.base_io.specs.declared.sink.Put.TheVariants as put;

use crate::{Put, Sink};
use std::io::Write;

/// A writer whose failures are counted. It tells of its bytes what the writer tells. A write that takes nothing is a
/// failure.
#[derive(Drop)]
pub struct WriteSink<T> {
    inner: T,
    faults: u64,
}

impl<T: Write> WriteSink<T> {
    pub fn new(inner: T) -> Self
        ensures taken { ⟦<WriteSink<T> as Sink>⟧.taken result ≡ T.contents inner }
        ensures faults { ⟦<WriteSink<T> as Sink>⟧.faults result ≡ 0 }
    {
        WriteSink { inner, faults: 0 }
    }
}

impl<T: Write> Sink for WriteSink<T> {
    ghost taken = { λ s. T.contents s.inner };

    ghost faults = { λ s. s.faults };

    fn write(&mut self, bytes: &[u8]) -> Put
        requires { 0 < length bytes.now }
        ensures within { IsWithin result (length bytes.now) }
        ensures bytes { PutsBytes (⟦<WriteSink<T> as Sink>⟧.taken self.old) (⟦<WriteSink<T> as Sink>⟧.taken self.new) result bytes.now }
        ensures count { CountsFault (⟦<WriteSink<T> as Sink>⟧.faults self.old) (⟦<WriteSink<T> as Sink>⟧.faults self.new) result }
        ensures one { result ≡ put.Failed → ⟦<WriteSink<T> as Sink>⟧.faults self.new ≡ one_fault_more (⟦<WriteSink<T> as Sink>⟧.faults self.old) }
    {
        match self.inner.write(bytes) {
            Ok(0) | Err(_) => {
                self.faults = self.faults.saturating_add(1);
                Put::Failed
            }
            Ok(count) => Put::Took(count),
        }
    }
}
