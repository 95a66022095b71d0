//! How a call ended.

use crate::Status;
use base_io::Tap;

/// A status, and the taps that finished with their places in the list that was lent.
#[derive(Drop)]
pub struct Ended {
    pub status: Status,
    pub spent: Vec<Box<dyn Tap>>,
    pub places: Vec<usize>,
}
