//! An agent's lines over a segment.

use crate::part::Part;

/// The lines of one agent over a segment, which are all of one kind.
#[derive(Clone, Copy, Debug, PartialEq, Eq)]
pub(crate) enum Cell {
    Empty,
    Clean(Part),
    Dirty(Part),
}
