//! What is recorded, by what it is for.

use program::Item;

/// What an item is for, so that others can need it.
#[derive(Clone, Copy, Debug, PartialEq, Eq)]
pub enum Mark {
    /// The command with this number.
    Command(u32),
    /// What stands right before the first member of the group with this number.
    Prologue(u32),
    /// The release after the group with this number.
    Release(u32),
}

/// What is recorded in turn, for all queues together.
#[derive(Debug, Drop)]
pub enum Marked {
    /// The queue does this after its earlier items. Nothing needs an item without a mark.
    Does {
        queue: u32,
        mark: Option<Mark>,
        item: Item,
    },
    /// The queue's next item comes only after the item of another queue that has the mark.
    Needs {
        queue: u32,
        mark: Mark,
    },
}
