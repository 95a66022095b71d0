//! The rules of frames.

ghost use Rattle.std.specs.Prelude.{◌≡◌};
ghost use Rattle.frame.specs.Faults.{number_of};

/// A rule of frames.
#[derive(Clone, Copy, Debug, PartialEq, Eq)]
pub enum Rule {
    /// No limit is gone over.
    Limits,
    /// No name stands twice, and no entry names a unit of one before it.
    Repeated,
    /// Each name is declared, and each layer is there.
    Unknown,
    /// Each operation runs on the queue of its pass.
    Runs,
    /// Each operand is declared by its pass.
    Declared,
    /// New contents are first stored whole.
    Whole,
    /// What is read, changed or exported was written.
    Unwritten,
    /// Imports and operations fit their resources.
    Fits,
    /// Nothing is computed in place.
    InPlace,
    /// New contents are not read.
    ReadNew,
}

impl Rule {
    /// The number that a fault line prints.
    pub fn number(self) -> u8
        ensures { result ≡ number_of self }
    {
        match self {
            Rule::Limits => 4,
            Rule::Repeated => 5,
            Rule::Unknown => 6,
            Rule::Runs => 7,
            Rule::Declared => 8,
            Rule::Whole => 9,
            Rule::Unwritten => 10,
            Rule::Fits => 11,
            Rule::InPlace => 12,
            Rule::ReadNew => 13,
        }
    }
}
