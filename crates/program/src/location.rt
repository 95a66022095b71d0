//! Where a program breaks a rule, by positions.

/// A location in a program.
#[derive(Clone, Copy, Debug, PartialEq, Eq)]
pub enum Location {
    Whole,
    Queues,
    Memories,
    Pieces,
    Readbacks,
    Memory(usize),
    Piece(usize),
    /// A wait of a batch of a queue.
    Wait(usize, usize, usize),
    /// An item of a batch of a queue.
    Item(usize, usize, usize),
    /// The signal of a batch of a queue.
    Signal(usize, usize),
    Readback(usize),
}
