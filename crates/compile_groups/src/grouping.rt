//! The groups of a kept frame, as plain data.

use crate::{Command, Use};
use base::{Family, List, Shape};
use vk::Sharing;

/// Commands and the groups of their uses, with what is known of units and queues. Groups are numbered by unit, and then in
/// the order of their commands.
#[derive(Debug, Drop)]
pub struct Grouping {
    /// Of the units, and then of the buffer of each export.
    pub shapes: List<Shape>,
    /// Of the units.
    pub sharings: List<Sharing>,
    /// For each unit whether it is an import.
    pub imports: List<bool>,
    /// Of the queues.
    pub families: List<Family>,
    pub commands: List<Command>,
    pub groups: List<List<Use>>,
}
