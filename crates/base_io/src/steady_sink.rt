//! A sink that takes everything and keeps nothing.

ghost use Rattle.std.specs.Prelude.{◌≡◌, length, None};

use crate::{Put, Sink};

/// A sink that tells no bytes and whose count of faults is always 0.
#[derive(Clone, Copy, Debug, PartialEq, Eq)]
pub struct SteadySink;

impl SteadySink {
    pub fn new() -> Self {
        SteadySink
    }
}

impl Sink for SteadySink {
    ghost taken = { λ _. None };

    ghost faults = { λ _. 0 };

    fn write(&mut self, bytes: &[u8]) -> Put
        ensures { result ≡ Put.Took (length bytes.now) }
    {
        Put::Took(bytes.len())
    }
}
