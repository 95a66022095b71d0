//! What a call does to the segments of its range.

ghost use Rattle.std.specs.Prelude.{◌≡◌, true};
ghost use Rattle.device_cache.specs.Internal.Rows.{main_after, line_after};
ghost use Rattle.device_cache.specs.declared.part.Part.{Part};

use crate::cell::Cell;
use crate::part::Part;

#[derive(Clone, Copy, Debug)]
pub(crate) enum Change {
    Put(Part),
    WriteBack,
    DropClean,
    Fill,
    Junk(Part),
}

/// Main's part after the change, by the part and the agent's lines before it.
pub(crate) fn main_after(change: Change, main: Part, line: Cell) -> Part
    ensures { result ≡ main_after change main line }
{
    match (change, line) {
        (Change::WriteBack, Cell::Dirty(part)) => part,
        (Change::Junk(part), _) => part,
        _ => main,
    }
}

/// The agent's lines after the change, by main's part and the lines before it.
pub(crate) fn line_after(change: Change, main: Part, line: Cell) -> Cell
    ensures { result ≡ line_after change main line }
{
    match (change, line) {
        (Change::Put(part), _) => Cell::Dirty(part),
        (Change::WriteBack, Cell::Dirty(part)) => Cell::Clean(part),
        (Change::DropClean, Cell::Clean(_)) => Cell::Empty,
        (Change::Fill, Cell::Empty) => Cell::Clean(main),
        _ => line,
    }
}

/// Whether the change moves lines of another kind than the agent has.
pub(crate) fn leaves(change: Change, line: Cell) -> bool
    ensures main { result ≡ true → (main : Part) → main_after change main line ≡ main }
    ensures line { result ≡ true → (main : Part) → line_after change main line ≡ line }
{
    match (change, line) {
        (Change::WriteBack, Cell::Empty | Cell::Clean(_)) => true,
        (Change::DropClean, Cell::Empty | Cell::Dirty(_)) => true,
        _ => false,
    }
}
