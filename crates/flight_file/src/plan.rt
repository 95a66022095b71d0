//! How frames are to fly.

use base::{Name, RunOptions};

/// How the frames of a file are to fly.
#[derive(Clone, Copy)]
pub struct FlightPlan<'a> {
    /// How what each window is compiled to is run on its device.
    pub options: RunOptions,
    /// The names under which bytes persist from one frame to the next: at most 16, all different.
    pub persist: &'a [Name],
    /// How many frames are compiled together at most, 1 to 8.
    pub depth: u32,
}
