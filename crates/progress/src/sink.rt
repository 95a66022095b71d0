//! The line is wiped before an answer is written.

ghost use Rattle.std.specs.Prelude.{◌≡◌, ◌<◌, length};
ghost use Rattle.base_io.specs.Writes.{CountsFault, IsWithin, PutsBytes};

use crate::Meter;
use base_io::{Put, Sink};
use std::io::Eprint;
use std::sync::Wait;

/// A sink, before whose first write the line is wiped. It is the other sink in all else.
#[derive(Drop)]
pub struct MeterSink<'a, R: Wait + Eprint, O> {
    rt: &'a R,
    meter: &'a Meter,
    inner: O,
}

impl<'a, R: Wait + Eprint, O: Sink> MeterSink<'a, R, O> {
    /// This sink, with the line of this meter.
    pub fn new(rt: &'a R, meter: &'a Meter, inner: O) -> Self
        ensures taken { ⟦<MeterSink<'a, R, O> as Sink>⟧.taken result ≡ O.taken inner }
        ensures faults { ⟦<MeterSink<'a, R, O> as Sink>⟧.faults result ≡ O.faults inner }
    {
        MeterSink { rt, meter, inner }
    }
}

impl<R: Wait + Eprint, O: Sink> Sink for MeterSink<'_, R, O> {
    ghost taken = { λ s. O.taken s.inner };

    ghost faults = { λ s. O.faults s.inner };

    fn write(&mut self, bytes: &[u8]) -> Put {
        self.meter.end(self.rt);
        self.inner.write(bytes)
    }
}
