//! What is wrong with the bytes that a load finds.

/// What is wrong with the bytes that a node loads of a piece.
#[derive(Clone, Copy, Debug, PartialEq, Eq)]
pub enum LoadHazard {
    /// H8: nobody stored them, or they were discarded last.
    Undefined { node: u32, piece: u32 },
    /// H9: they were stored last through another piece.
    Aliased { node: u32, piece: u32, other: u32 },
}
