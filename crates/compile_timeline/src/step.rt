//! One step of what is recorded.

ghost use Rattle.std.specs.Prelude.{◌≡◌};
ghost use Rattle.compile_timeline.specs.Internal.Scripts.{is_other_item};
ghost use Rattle.compile_timeline.specs.Steps.{queue_of, is_item};

use program::Item;

/// What is recorded in turn, for all queues together. A step is named by its place in the list.
#[derive(Debug, Drop)]
pub enum Step {
    /// The queue does this after its earlier items.
    Item { queue: u32, item: Item },
    /// The queue's next item comes only after the item of another queue that stands at that step.
    Need { queue: u32, step: u32 },
}

impl Step {
    /// The queue that does something, or needs it.
    pub fn queue(&self) -> u32
        ensures { result ≡ queue_of self.now }
    {
        match self {
            Step::Item { queue, .. } => *queue,
            Step::Need { queue, .. } => *queue,
        }
    }

    /// Whether it is an item of the queue.
    pub fn is_item(&self, of: u32) -> bool
        ensures { result ≡ is_item of self.now }
    {
        match self {
            Step::Item { queue, .. } => *queue == of,
            Step::Need { .. } => false,
        }
    }

    // Whether it is an item of another queue.
    pub(crate) fn is_other_item(&self, than: u32) -> bool
        ensures { result ≡ is_other_item than self.now }
    {
        match self {
            Step::Item { queue, .. } => *queue != than,
            _ => false,
        }
    }
}
