//! Where a command reads from.

use std::io;
use std::io::{ErrorKind, Read};

/// Standard input, a file, or a file that could not be opened, of which each read fails.
#[derive(Drop)]
pub enum Input<S, F> {
    Standard(S),
    File(F),
    Unopened,
}

impl<S: Read, F: Read> Read for Input<S, F> {
    fn read(&mut self, buf: &mut [u8]) -> io::Result<usize> {
        match self {
            Input::Standard(reader) => reader.read(buf),
            Input::File(file) => file.read(buf),
            Input::Unopened => Err(io::Error::from(ErrorKind::NotFound)),
        }
    }
}
