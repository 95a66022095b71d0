//! Bytes whose memory was taken before they are known.

ghost use Rattle.std.specs.Prelude.{◌≡◌, ◌<◌, if◌then◌else◌, length, replicate, Some, None, IfOk};
ghost use Rattle.device_cache.specs.Effects.{read_main};
ghost use Rattle.device_cache.specs.Lines.{range};
ghost use Rattle.device_cache.specs.Tables.{InMemory, caches_of};

use base::NoMemory;
use device_cache::Segments;
use std::alloc::Global;
use std::marker::Model;

/// So many bytes.
#[derive(Drop)]
pub(crate) struct Buffer {
    bytes: Vec<u8>,
}

impl Model for Buffer {
    ghost use Rattle.std.specs.Prelude.{ℕ, List};

    ghost Value = { List ℕ };

    ghost view = { λ b. b.bytes.items };
}

impl Buffer {
    pub fn new(alloc: Global, byte: u8, len: u32) -> Result<Buffer, NoMemory>
        ensures { IfOk result (λ buffer. buffer ≡ replicate len byte) }
    {
        Ok(Buffer {
            bytes: vec![in alloc; byte; len as usize]?,
        })
    }

    pub fn as_slice(&self) -> &[u8]
        ensures { result.now ≡ self.now }
    {
        self.bytes.as_slice()
    }

    /// All bytes become one.
    pub fn fill(&mut self, byte: u8)
        ensures { self.new ≡ replicate (length self.old) byte }
    {
        self.bytes.fill(byte);
    }

    /// The bytes of main.
    pub fn read_main(&mut self, table: &Segments, memory: u32, start: u32)
        requires { InMemory table.now memory start (length self.old) }
        ensures { self.new ≡ read_main (range memory start (length self.old)) (caches_of table.now) }
    {
        table.read_main(memory, start, &mut self.bytes);
    }
}

/// The byte of all junk, where something went wrong.
pub(crate) fn junk_if(undefined: bool, byte: u8) -> Option<u8>
    ensures { result ≡ (if undefined then Some byte else None) }
{
    if undefined { Some(byte) } else { None }
}
