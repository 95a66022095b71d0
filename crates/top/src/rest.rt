//! The part of the top call that needs no device.

ghost use Rattle.std.specs.Prelude.{◌≡◌, ◌⊎◌, [], IfOk, IfErr, Some, None, IfSome, IfNone, true};
ghost use Rattle.top.specs.Answers.{AnswersLeft, IsAnswered};
ghost use Rattle.answer.specs.AtRest.{needs_device};
ghost use Rattle.top.specs.Calls.{Call};
ghost use Rattle.top.specs.Causes.{ReadCause, WriteCause};
ghost use Rattle.top.specs.Internal.Served.{IsAtRest};
ghost use Rattle.top.specs.Internal.Steps.{ReadsAnswer};
ghost use Rattle.top.specs.Ends.{ends};
ghost use Rattle.answer.specs.Inputs.{file_of};
ghost use Rattle.top.specs.Takes.{TakesAll, TakesFew, file_in};
ghost use Rattle.top.specs.Outcomes.{IsUnanswered};
ghost use Rattle.top.specs.Replies.{still};
ghost use Rattle.cli.specs.Commands.{IsBounded};

use crate::Status;
use crate::input::{Input, input_of};
use crate::output::put;
use answer::{Answer, AnswerStatus, answer_bytes, file_of, form_of, over_input};
use base_io::{Sink, Source};
use cli::Command;
use std::alloc::Global;

fn needs_device(command: &Command) -> bool
    ensures { result ≡ needs_device (Some command.now) }
{
    match command {
        Command::Frame(_) | Command::Submission(_) | Command::Gen { .. } => false,
        Command::Run { .. }
        | Command::Exec { .. }
        | Command::Summary { .. }
        | Command::Flight { .. }
        | Command::Audit => true,
    }
}

/// The answer to the input that is read, or the status where there is none.
pub(crate) fn answer_input<I: Source>(
    alloc: Global,
    command: &Command,
    input: &mut I,
) -> Result<Answer, Status>
    requires { IsAtRest command.now }
    ensures answer { IfOk result (λ answer. AnswersLeft command.now (I.left input.old) [] (still answer)) }
    ensures none { IfErr result (λ status. (status ≡ Status.ReadFault) ⊎ (status ≡ Status.NoMemory)) }
    ensures read { ReadsAnswer (I.faults input.old) (I.faults input.new) result }
    ensures taken { TakesFew (file_of command.now) (I.left input.old) (I.left input.new) }
    ensures whole { IfOk result (λ _. TakesAll (file_of command.now) (I.left input.old) (I.left input.new)) }
    ensures unread { file_of command.now ≡ None → input.new ≡ input.old }
{
    match input_of(alloc, file_of(command), input)? {
        Input::Bytes(bytes) => Ok(answer_bytes(alloc, command, bytes.as_slice())?),
        Input::Over(file) => Ok(over_input(alloc, form_of(command), file)?),
    }
}

// Reads the input, does what the command says, and writes its text.
fn answer<I: Source, O: Sink>(
    alloc: Global,
    command: &Command,
    input: &mut I,
    output: &mut O,
) -> Status
    requires { IsAtRest command.now }
    ensures answered { IsAnswered command.now (I.left input.old) (O.taken output.old) (O.taken output.new) (λ history. history ≡ None) (λ devices. devices ≡ []) result }
    ensures read { ReadCause (I.faults input.old) (I.faults input.new) result }
    ensures write { WriteCause (O.faults output.old) (O.faults output.new) result }
    ensures taken { TakesFew (file_of command.now) (I.left input.old) (I.left input.new) }
    ensures whole { ¬ IsUnanswered result → TakesAll (file_of command.now) (I.left input.old) (I.left input.new) }
    ensures unread { file_of command.now ≡ None → input.new ≡ input.old }
    ensures unwritten { IsUnanswered result → output.new ≡ output.old }
{
    match answer_input(alloc, command, input) {
        Ok(answer) => put(output, answer.status, answer.text.as_slice()),
        Err(status) => status,
    }
}

/// Does the whole work of the top call for all commands but those that need a device, which are `run`, `exec`, `gen --summary`,
/// `flight` and `audit`: for these it answers none, and has read and written nothing. For the others, and where there is no
/// command, all holds that holds of the top call.
pub fn at_rest<I: Source, O: Sink>(
    alloc: Global,
    command: &Option<Command>,
    input: &mut I,
    output: &mut O,
) -> Option<Status>
    requires bounded { IfSome command.now IsBounded }

    // The commands that are left alone.
    ensures left { needs_device command.now ≡ true → (result ≡ None) × (input.new ≡ input.old) × (output.new ≡ output.old) }
    ensures none { IfNone result (needs_device command.now ≡ true) }

    // All others.
    ensures call { let seen = ends I.left I.faults O.taken O.faults in
        IfSome result (Call command.now (seen input.old output.old) (seen input.new output.new) (λ history. history ≡ None) (λ devices. devices ≡ [])) }
    ensures unread { file_in command.now ≡ None → input.new ≡ input.old }
    ensures unwritten { IfSome result (λ status. IsUnanswered status → output.new ≡ output.old) }
{
    match command {
        Some(command) => {
            if needs_device(command) {
                return None;
            }
            Some(answer(alloc, command, input, output))
        }
        None => Some(put(output, AnswerStatus::Words, b"words\n")),
    }
}
