//! Which bytes of a memory.

/// `len` bytes of a memory, from byte `start` on. Memories are numbered from 0.
#[derive(Clone, Copy, Debug, PartialEq, Eq)]
pub struct MemoryRange {
    pub memory: u32,
    pub start: u32,
    pub len: u32,
}
