//! The bytes of a destination before an operation.

ghost use Rattle.std.specs.Prelude.{◌≡◌, ◌≤◌, length, replicate, vec_capacity};
ghost use Rattle.kernel_simd.specs.Internal.Targets.{bytes_in, HasRoomFor};

use bytes::BytesMut;
use std::marker::Model;

/// Memory for bytes.
#[derive(Drop)]
pub(crate) enum Memory {
    // It is first touched when bytes are written.
    New(Vec<u8>),
    // With bytes of its own.
    Used(BytesMut),
}

/// The bytes of a destination before an operation. Those of new memory are zeros, which nobody has to write.
#[derive(Drop)]
pub struct Target {
    memory: Memory,
    len: usize,
}

impl Model for Target {
    ghost use Rattle.std.specs.Prelude.{ℕ, List};
    ghost use Rattle.kernel_simd.specs.Internal.Inside.{its_bytes, IsTarget};

    ghost Value = { List ℕ };

    ghost view = { its_bytes };

    ghost invariant = { IsTarget };
}

// So many times one byte, in memory that has room for them.
fn filled(mut memory: Vec<u8>, len: usize, byte: u8) -> BytesMut
    requires { len ≤ vec_capacity memory }
    ensures { result.items ≡ replicate len byte }
{
    memory.clear();
    let _filled = memory.resize(len, byte);
    BytesMut::from_vec(memory)
}

// The same bytes, in memory that has room for them.
fn copied(mut memory: Vec<u8>, bytes: &[u8]) -> BytesMut
    requires { length bytes.now ≤ vec_capacity memory }
    ensures { result.items ≡ bytes.now }
{
    memory.clear();
    let _copied = memory.extend_from_slice(bytes);
    BytesMut::from_vec(memory)
}

impl Target {
    /// So many zeros, in memory that has room for them.
    pub fn zeros(memory: Vec<u8>, len: usize) -> Target
        requires { len ≤ vec_capacity memory }
        ensures { result ≡ replicate len 0 }
    {
        Target {
            memory: Memory::New(memory),
            len,
        }
    }

    /// These bytes.
    pub fn holding(bytes: BytesMut) -> Target
        ensures { result ≡ bytes.items }
    {
        let len = bytes.len();
        Target {
            memory: Memory::Used(bytes),
            len,
        }
    }

    /// How many bytes.
    pub fn len(&self) -> usize
        ensures { result ≡ length self.now }
    {
        self.len
    }

    /// Whether its memory is new.
    pub(crate) fn is_new(&self) -> bool {
        matches!(self.memory, Memory::New(_))
    }

    /// The bytes themselves.
    pub fn into_bytes(self) -> BytesMut
        ensures { result.items ≡ self }
    {
        let Target { memory, len } = self;
        match memory {
            Memory::New(memory) => filled(memory, len, 0),
            Memory::Used(bytes) => bytes,
        }
    }

    /// Zeros in their place. New memory stays as it is.
    pub fn into_zeros(self) -> Target
        ensures { result ≡ replicate (length self) 0 }
    {
        let Target { memory, len } = self;
        match memory {
            Memory::New(memory) => Target::zeros(memory, len),
            Memory::Used(mut bytes) => {
                bytes.as_mut_slice().fill(0);
                Target::holding(bytes)
            }
        }
    }

    /// One byte in the place of each.
    pub fn into_filled(self, byte: u8) -> BytesMut
        ensures { result.items ≡ replicate (length self) byte }
    {
        let Target { memory, len } = self;
        match memory {
            Memory::New(memory) => filled(memory, len, byte),
            Memory::Used(mut bytes) => {
                bytes.as_mut_slice().fill(byte);
                bytes
            }
        }
    }

    /// Other bytes in their place.
    pub fn into_copy(self, bytes: &[u8]) -> BytesMut
        requires { length bytes.now ≡ length self }
        ensures { result.items ≡ bytes.now }
    {
        let Target { memory, len: _ } = self;
        match memory {
            Memory::New(memory) => copied(memory, bytes),
            Memory::Used(mut out) => {
                out.as_mut_slice().copy_from_slice(bytes);
                out
            }
        }
    }

    /// Its memory, with the bytes where they were written.
    pub(crate) fn into_memory(self) -> Memory
        ensures bytes { bytes_in (length self) result ≡ self }
        ensures room { HasRoomFor (length self) result }
    {
        let Target { memory, len: _ } = self;
        memory
    }
}
