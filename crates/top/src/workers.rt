//! The part of the top call that needs no workers.

ghost use Rattle.std.specs.Prelude.{◌≡◌, ◌⊎◌, [], IfOk, IfErr, Some, None, IfSome, IfNone, true};
ghost use Rattle.top.specs.Answers.{AnswersLeft, IsAnswered};
ghost use Rattle.top.specs.Calls.{Call};
ghost use Rattle.top.specs.Causes.{ReadCause, WriteCause};
ghost use Rattle.top.specs.Internal.Steps.{ReadsAnswer};
ghost use Rattle.top.specs.Ends.{ends};
ghost use Rattle.answer.specs.Inputs.{file_of};
ghost use Rattle.top.specs.Takes.{TakesAll, TakesFew, file_in};
ghost use Rattle.top.specs.Outcomes.{IsUnanswered};
ghost use Rattle.top.specs.Replies.{still};
ghost use Rattle.top.specs.Workers.{needs_workers};
ghost use Rattle.cli.specs.Commands.{IsBounded};
ghost use Rattle.cli.specs.declared.command.Command.TheVariants.{Audit};

use crate::audit::audit_file;
use crate::input::{Input, input_of};
use crate::output::put;
use crate::{Status, at_rest};
use answer::{Answer, file_of, form_of, over_input};
use base_io::{Sink, Source};
use cli::Command;
use std::alloc::Global;
use std::thread::Threads;

// The answer to a submission and a trace that are read, or the status where there is none.
fn answer_audit<R: Threads + Sync, I: Source>(
    rt: &R,
    alloc: Global,
    input: &mut I,
) -> Result<Answer, Status>
    ensures answer { IfOk result (λ answer. AnswersLeft Audit (I.left input.old) [] (still answer)) }
    ensures none { IfErr result (λ status. (status ≡ Status.ReadFault) ⊎ (status ≡ Status.NoMemory)) }
    ensures read { ReadsAnswer (I.faults input.old) (I.faults input.new) result }
    ensures taken { TakesFew (file_of Audit) (I.left input.old) (I.left input.new) }
    ensures whole { IfOk result (λ _. TakesAll (file_of Audit) (I.left input.old) (I.left input.new)) }
{
    let command = Command::Audit;
    match input_of(alloc, file_of(&command), input)? {
        Input::Bytes(bytes) => Ok(audit_file(rt, alloc, bytes.as_slice())?),
        Input::Over(file) => Ok(over_input(alloc, form_of(&command), file)?),
    }
}

// Reads the input of `audit`, judges it, and writes the verdict.
fn tell_audit<R: Threads + Sync, I: Source, O: Sink>(
    rt: &R,
    alloc: Global,
    input: &mut I,
    output: &mut O,
) -> Status
    ensures answered { IsAnswered Audit (I.left input.old) (O.taken output.old) (O.taken output.new) (λ history. history ≡ None) (λ devices. devices ≡ []) result }
    ensures read { ReadCause (I.faults input.old) (I.faults input.new) result }
    ensures write { WriteCause (O.faults output.old) (O.faults output.new) result }
    ensures taken { TakesFew (file_of Audit) (I.left input.old) (I.left input.new) }
    ensures whole { ¬ IsUnanswered result → TakesAll (file_of Audit) (I.left input.old) (I.left input.new) }
    ensures unwritten { IsUnanswered result → output.new ≡ output.old }
{
    match answer_audit(rt, alloc, input) {
        Ok(answer) => put(output, answer.status, answer.text.as_slice()),
        Err(status) => status,
    }
}

/// Does the whole work of the top call for all commands but those that need workers, which are `run`, `exec`, `gen --summary`
/// and `flight`: for these it answers none, and has read and written nothing. For the others, and where there is no command, all
/// holds that holds of the top call. It has no leave to wait, so it returns: `audit` too, which starts threads for a device of
/// its own, keeps no device and tells no tap.
pub fn without_workers<R: Threads + Sync, I: Source, O: Sink>(
    rt: &R,
    alloc: Global,
    command: &Option<Command>,
    input: &mut I,
    output: &mut O,
) -> Option<Status>
    requires bounded { IfSome command.now IsBounded }

    // The commands that are left alone.
    ensures left { needs_workers command.now ≡ true → (result ≡ None) × (input.new ≡ input.old) × (output.new ≡ output.old) }
    ensures none { IfNone result (needs_workers command.now ≡ true) }

    // All others.
    ensures call { let seen = ends I.left I.faults O.taken O.faults in
        IfSome result (Call command.now (seen input.old output.old) (seen input.new output.new) (λ history. history ≡ None) (λ devices. devices ≡ [])) }
    ensures unread { file_in command.now ≡ None → input.new ≡ input.old }
    ensures unwritten { IfSome result (λ status. IsUnanswered status → output.new ≡ output.old) }
{
    match command {
        Some(Command::Audit) => Some(tell_audit(rt, alloc, input, output)),
        _ => at_rest(alloc, command, input, output),
    }
}
