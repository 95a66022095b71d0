//! What a device does, step by step.

use crate::CacheMove;

/// One event of the device. Nodes are numbered from 0.
#[derive(Clone, Copy, Debug, PartialEq, Eq)]
pub enum Event {
    /// A command loads its inputs.
    Begin { node: u32 },
    /// A command stores its result.
    End { node: u32 },
    /// A barrier, wait or signal takes effect.
    Sync { node: u32 },
    /// Lines of a cache move.
    Move(CacheMove),
    /// The host reads a piece of memory.
    Host { node: u32 },
}
