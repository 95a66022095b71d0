//! A pass with numbers in place of names.

use crate::Write;
use base::{List, Op};

/// A pass over the numbers of queues and units. Each entry that names a whole resource stands here as all its units.
#[derive(Debug, Drop)]
pub struct NumberedPass {
    pub queue: u32,
    pub reads: List<u32>,
    pub writes: List<Write<u32>>,
    pub ops: List<Op<u32>>,
    pub side_effect: bool,
}

/// The units that an entry of reads, writes or exports stands for: those from the first on, up to the end.
#[derive(Clone, Copy, Debug)]
pub struct Span {
    pub first: u32,
    pub end: u32,
}

/// The units of a declared write.
#[derive(Clone, Copy, Debug)]
pub struct Stored {
    pub units: Span,
    pub fresh: bool,
}

/// A numbered pass beside its entries, each with its units.
#[derive(Debug, Drop)]
pub struct Uses {
    pub pass: NumberedPass,
    pub reads: List<Span>,
    pub writes: List<Stored>,
}

/// The units of one resource: so many from the first on.
#[derive(Clone, Copy, Debug, PartialEq, Eq)]
pub struct Stretch {
    pub first: u32,
    pub layers: u32,
    pub is_image: bool,
}
