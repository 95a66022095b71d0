//! How a command ends, and a call.

ghost use Rattle.std.specs.Prelude.{◌≡◌};
ghost use Rattle.answer.specs.Statuses.{number_of, status_of};
ghost use Rattle.answer.specs.declared.status.Status.TheVariants as ended;

use base::NoMemory;

/// How a command ended that has a text.
#[derive(Clone, Copy, Debug, PartialEq, Eq)]
pub enum AnswerStatus {
    /// All went well.
    Done,
    /// The program that was read is not sound, or the trace behind it is no run of it.
    Rejected,
    /// The file that was read has a fault, or is no trace.
    Refused,
    /// The words are no command line.
    Words,
}

/// How a call ends; `number` is the exit status of the program. Of the first four the text was written whole.
#[derive(Clone, Copy, Debug, PartialEq, Eq)]
pub enum Status {
    /// `AnswerStatus::Done`.
    Done,
    /// `AnswerStatus::Rejected`.
    Rejected,
    /// `AnswerStatus::Refused`.
    Refused,
    /// `AnswerStatus::Words`.
    Words,
    /// A read failed, and nothing was written.
    ReadFault,
    /// A write failed.
    WriteFault,
    /// Memory ran out, and nothing was written.
    NoMemory,
}

impl Status {
    /// The exit status of the program.
    pub fn number(self) -> u8
        ensures { result ≡ number_of self }
    {
        match self {
            Status::Done => 0,
            Status::Rejected => 1,
            Status::Refused => 2,
            Status::Words => 3,
            Status::ReadFault => 4,
            Status::WriteFault => 5,
            Status::NoMemory => 6,
        }
    }
}

impl From<AnswerStatus> for Status {
    ghost from_gives = { λ answered status. status ≡ status_of answered };

    fn from(answered: AnswerStatus) -> Self {
        match answered {
            AnswerStatus::Done => Status::Done,
            AnswerStatus::Rejected => Status::Rejected,
            AnswerStatus::Refused => Status::Refused,
            AnswerStatus::Words => Status::Words,
        }
    }
}

impl From<NoMemory> for Status {
    ghost from_gives = { λ _ status. status ≡ ended.NoMemory };

    fn from(_e: NoMemory) -> Self {
        Status::NoMemory
    }
}
