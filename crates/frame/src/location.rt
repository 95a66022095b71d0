//! Where a frame breaks a rule, by positions.

/// A member of an operation that names what it works on.
#[derive(Clone, Copy, Debug, PartialEq, Eq)]
pub enum Operand {
    Src,
    Mask,
    A,
    B,
    Dst,
}

/// A location in a frame.
#[derive(Clone, Copy, Debug, PartialEq, Eq)]
pub enum Location {
    Queues,
    Resources,
    Passes,
    Exports,
    Queue(usize),
    Resource(usize),
    Import(usize),
    Pass(usize),
    PassQueue(usize),
    Read(usize, usize),
    Write(usize, usize),
    Ops(usize),
    /// The name of an operation.
    Op(usize, usize),
    Rects(usize, usize),
    Operand(usize, usize, Operand),
    Export(usize),
}
