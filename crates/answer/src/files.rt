//! What a command reads.

ghost use Rattle.std.specs.Prelude.{◌≡◌, ◌<◌, ◌^◌, IfOk};
ghost use Rattle.answer.specs.Answers.{over_input};
ghost use Rattle.answer.specs.Inputs.{file_of, limit_of};

use crate::answer::{Answer, program_refusal, refusal};
use base::{Limit, List, NoMemory};
use cli::{Command, Form};
use frame::FrameFault;
use program::ProgramFault;
use std::alloc::Global;

/// What a command reads.
#[derive(Clone, Copy, Debug, PartialEq, Eq)]
pub enum File {
    /// A frame; `flight` reads one on each line.
    Frame,
    /// A submission, behind which `audit` reads a trace.
    Submission,
}

/// What a command reads; none where it reads nothing.
pub fn file_of(command: &Command) -> Option<File>
    ensures { result ≡ file_of command.now }
{
    match command {
        Command::Frame(_) | Command::Run { .. } | Command::Flight { .. } => Some(File::Frame),
        Command::Submission(_) | Command::Exec { .. } | Command::Audit => Some(File::Submission),
        Command::Gen { .. } | Command::Summary { .. } => None,
    }
}

/// 16 MiB of a frame, 32 MiB of a submission.
pub fn limit_of(file: File) -> usize
    ensures limit { result ≡ limit_of file }
    ensures small { result < 2 ^ 32 }
{
    match file {
        File::Frame => 16_777_216,
        File::Submission => 33_554_432,
    }
}

/// The answer to more bytes than the limit, as JSON where that is asked for.
pub fn over_input(alloc: Global, form: Form, file: File) -> Result<Answer, NoMemory>
    ensures over { IfOk result (λ answer. answer ≡ over_input form file) }
{
    let place = List::new(alloc);
    match file {
        File::Frame => refusal(alloc, form, &FrameFault::over_limit(Limit::Input, place)),
        File::Submission => {
            program_refusal(alloc, form, &ProgramFault::over_limit(Limit::Input, place))
        }
    }
}
