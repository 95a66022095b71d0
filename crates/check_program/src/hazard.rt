//! What is wrong with a program.

use check_state::{LoadHazard, StateHazard};
use check_sync::SyncHazard;

/// What keeps a program from being sound. Nodes, pieces and queues are named by their numbers.
#[derive(Clone, Copy, Debug, PartialEq, Eq)]
pub enum Hazard {
    /// H1: no queue can go on. The lowest queue that has a node left, and its next node.
    Stuck { queue: u32, node: u32 },
    /// H2 to H4: two nodes touch the same memory, and are not synchronized.
    Sync(SyncHazard),
    /// H5 to H7: a node finds a piece in a state that it does not want.
    State(StateHazard),
    /// H8 and H9: a node loads bytes that are not there.
    Load(LoadHazard),
}
