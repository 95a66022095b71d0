//! What a node does to memory.

use crate::Access;
use base::List;

/// Where a barrier makes memory available and visible.
#[derive(Clone, Copy, Debug, PartialEq, Eq)]
pub enum Scope {
    Everywhere,
    /// On the piece of this number alone.
    Piece(u32),
}

/// What a node does to memory: its accesses in order, and of which agents of its queue it makes the stores available, and to
/// which it makes memory visible, as `vk::agents`.
#[derive(Debug, Drop)]
pub struct Effect {
    pub accesses: List<Access>,
    pub available: u16,
    pub visible: u16,
    pub scope: Scope,
}
