//! How a program is run on a device.

/// How a program is run on a device.
#[derive(Clone, Copy, Debug, PartialEq, Eq)]
pub struct RunOptions {
    /// How many workers run it, 1 to 16.
    pub workers: u32,
    /// The seed of the cache moves that are made meanwhile; without one none are made.
    pub tend: Option<u64>,
}
