//! What flying comes to.

use base::{Event, List, Text};

/// What a file of frames comes to.
#[derive(Debug, Drop)]
pub enum Outcome {
    /// What the frames export, and what the devices did, one after another.
    Flown { text: Text, history: List<Event> },
    /// Why they do not fly.
    Refused { text: Text },
}
