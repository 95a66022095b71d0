//! What a command does with a unit.

use vk::{Accesses, Layout, Stages};

/// A command's use of a unit. Where several operands name the unit, the first stands for all.
#[derive(Clone, Copy, Debug, PartialEq, Eq)]
pub struct Use {
    pub command: u32,
    /// The number of the operand.
    pub operand: u32,
    /// The queue of the command.
    pub queue: u32,
    pub unit: u32,
    pub stage: Stages,
    pub accesses: Accesses,
    /// Those of the accesses that write.
    pub writes: Accesses,
    /// In which an image has to be.
    pub layout: Option<Layout>,
}

/// A command's use of a unit, with its group.
#[derive(Clone, Copy, Debug, PartialEq, Eq)]
pub struct UseAt {
    pub command: u32,
    /// The number of the operand.
    pub operand: u32,
    /// The unit.
    pub resource: u32,
    /// The number of the group that the use is in.
    pub group: u32,
}
