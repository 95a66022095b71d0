//! What a command answers to bytes.

ghost use Rattle.std.specs.Prelude.{◌≡◌, IfOk, Some, false};
ghost use Rattle.answer.specs.Answers.{Answers, AnswersBytes};
ghost use Rattle.answer.specs.AtRest.{needs_device};
ghost use Rattle.cli.specs.Commands.{IsBounded};

use crate::answer::Answer;
use crate::files::{file_of, limit_of, over_input};
use crate::form::form_of;
use crate::frames::answer_frame_file;
use crate::generating::generate_frame;
use crate::programs::answer_program_file;
use base::NoMemory;
use cli::Command;
use std::alloc::Global;

/// The answer of a command that needs no device to bytes within the limit.
pub fn answer_bytes(alloc: Global, command: &Command, bytes: &[u8]) -> Result<Answer, NoMemory>
    requires rests { needs_device (Some command.now) ≡ false }
    requires bounded { IsBounded command.now }
    ensures answer { IfOk result (AnswersBytes command.now bytes.now) }
{
    match command {
        Command::Frame(asked) => answer_frame_file(alloc, *asked, bytes),
        Command::Submission(asked) => answer_program_file(alloc, *asked, bytes),
        Command::Gen { number, passes } => generate_frame(alloc, *number, *passes),
        Command::Run { .. }
        | Command::Exec { .. }
        | Command::Summary { .. }
        | Command::Flight { .. }
        | Command::Audit => unreachable!(),
    }
}

/// The answer of a command that needs no device to these bytes: what the top call answers where they are what its source had
/// left. Over the command's limit it is the fault that tells so.
pub fn answer_to(alloc: Global, command: &Command, bytes: &[u8]) -> Result<Answer, NoMemory>
    requires rests { needs_device (Some command.now) ≡ false }
    requires bounded { IsBounded command.now }
    ensures answers { IfOk result (Answers command.now bytes.now) }
{
    match file_of(command) {
        Some(file) => {
            if bytes.len() > limit_of(file) {
                over_input(alloc, form_of(command), file)
            } else {
                answer_bytes(alloc, command, bytes)
            }
        }
        None => answer_bytes(alloc, command, bytes),
    }
}
