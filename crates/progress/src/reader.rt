//! While standard input is waited for, no line is shown.

use crate::Meter;
use std::io;
use std::io::{Eprint, Read};
use std::sync::Wait;

/// A reader that may wait for a terminal, or for another program, which both write there. It is the other reader in all else.
#[derive(Drop)]
pub struct MeterReader<'a, R: Wait + Eprint, T> {
    rt: &'a R,
    meter: &'a Meter,
    inner: T,
}

impl<'a, R: Wait + Eprint, T: Read> MeterReader<'a, R, T> {
    /// This reader, with the line of this meter.
    pub fn new(rt: &'a R, meter: &'a Meter, inner: T) -> Self {
        MeterReader { rt, meter, inner }
    }
}

impl<R: Wait + Eprint, T: Read> Read for MeterReader<'_, R, T> {
    ghost remaining = { λ r. T.remaining r.inner };

    fn read(&mut self, buf: &mut [u8]) -> io::Result<usize> {
        self.meter.begin_wait(self.rt);
        let result = self.inner.read(buf);
        self.meter.end_wait();
        result
    }
}
