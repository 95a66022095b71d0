//! The rules of programs.

ghost use Rattle.std.specs.Prelude.{◌≡◌};
ghost use Rattle.program.specs.Faults.{number_of};

/// A rule of programs. All but the one on limits are on each part.
#[derive(Clone, Copy, Debug, PartialEq, Eq)]
pub enum Rule {
    /// No limit is gone over.
    Limits,
    /// Pieces are in their memories, and what is submitted fits the pieces.
    Range,
    /// Each number names something.
    Known,
    /// No stage mask is empty.
    Stages,
    /// What the standard ignores of a transfer's masks is empty.
    Ignored,
    /// Each access is supported by a stage of its mask.
    Supported,
    /// Each stage is one of the queue's family.
    OnQueue,
    /// Each operation runs on the queue's family.
    Runs,
    /// The values of a queue's signals rise, and a wait is for one that can be signaled.
    Timeline,
}

impl Rule {
    /// The number that a fault line prints.
    pub fn number(self) -> u8
        ensures { result ≡ number_of self }
    {
        match self {
            Rule::Limits => 1,
            Rule::Range => 2,
            Rule::Known => 3,
            Rule::Stages => 4,
            Rule::Ignored => 5,
            Rule::Supported => 6,
            Rule::OnQueue => 7,
            Rule::Runs => 8,
            Rule::Timeline => 9,
        }
    }
}
