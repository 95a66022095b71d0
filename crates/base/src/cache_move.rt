//! What a cache does by itself, between commands.

use crate::MemoryRange;

/// What becomes of lines that move.
#[derive(Clone, Copy, Debug, PartialEq, Eq)]
pub enum MoveKind {
    /// Dirty lines go to memory and become clean.
    WriteBack,
    /// Bytes without a line get clean lines.
    Fill,
    /// Clean lines go away.
    DropLine,
}

/// Lines of one agent move, over a range of a memory. Agents are numbered from 0.
#[derive(Clone, Copy, Debug, PartialEq, Eq)]
pub struct CacheMove {
    pub kind: MoveKind,
    pub agent: u32,
    pub range: MemoryRange,
}
