//! What a trace is to a program.

use device::Device;

/// What a trace is to a program.
#[derive(Drop)]
pub enum Verdict {
    /// A run: the device has made it, and all nodes are done.
    Run(Device),
    /// The event at this place, counted from 0, is the first that is not enabled.
    NotEnabled { at: u32 },
    /// Each event is enabled in its turn, and this node is the least that is not done at the end.
    Unfinished { node: u32 },
}
