//! Why the program did not do what its words say.

use base::NoMemory;

/// It could not: the words are no call, the input is no sound submission, or there was no room or memory.
#[derive(Clone, Copy, Debug, PartialEq, Eq)]
pub struct Stopped;

impl From<NoMemory> for Stopped {
    fn from(_e: NoMemory) -> Self {
        Stopped
    }
}
