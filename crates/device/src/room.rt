//! Room for bytes whose memory was taken before they are known.

ghost use Rattle.std.specs.Prelude.{◌≡◌, length, replicate, IfOk};

use base::{NoMemory, Op};
use bytes::BytesMut;
use kernel_simd::{Target, helpers_for};
use std::alloc::Global;
use std::marker::Model;

/// Room for so many bytes, which contracts see as zeros. Its memory may hold other bytes of an earlier use.
#[derive(Drop)]
pub(crate) struct Room {
    bytes: Target,
}

impl Model for Room {
    ghost use Rattle.std.specs.Prelude.{ℕ, List};
    ghost use Rattle.device.specs.Internal.Untouched.{zeros_of};

    ghost Value = { List ℕ };

    ghost view = { zeros_of };
}

impl Room {
    /// Memory that is to be used again serves where it has just so many bytes.
    pub fn new(alloc: Global, len: u32, spare: Option<BytesMut>) -> Result<Room, NoMemory>
        ensures { IfOk result (λ room. room ≡ replicate len 0) }
    {
        let len = len as usize;
        if let Some(bytes) = spare {
            if bytes.len() == len {
                return Ok(Room {
                    bytes: Target::holding(bytes),
                });
            }
        }
        let memory = Vec::with_capacity(alloc, len)?;
        Ok(Room {
            bytes: Target::zeros(memory, len),
        })
    }

    /// For how many bytes.
    pub fn len(&self) -> usize
        ensures { result ≡ length self.now }
    {
        self.bytes.len()
    }

    /// How many threads an operation that stores here has use for, beside the one that computes it.
    pub fn helpers(&self, op: &Op<u32>) -> usize {
        helpers_for(op, &self.bytes)
    }

    /// Any bytes. It takes no memory.
    pub fn into_any(self) -> Target
        ensures { length result ≡ length self }
    {
        self.bytes
    }

    /// Zeros. It takes no memory.
    pub fn into_zeros(self) -> Target
        ensures { result ≡ self }
    {
        self.bytes.into_zeros()
    }

    /// One byte in the place of each. It takes no memory.
    pub fn into_filled(self, byte: u8) -> BytesMut
        ensures { result.items ≡ replicate (length self) byte }
    {
        self.bytes.into_filled(byte)
    }

    /// Other bytes in their place. It takes no memory.
    pub fn into_copy(self, bytes: &[u8]) -> Target
        requires { length bytes.now ≡ length self }
        ensures { result ≡ bytes.now }
    {
        Target::holding(self.bytes.into_copy(bytes))
    }
}
