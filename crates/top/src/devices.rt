//! The commands that need workers, which run a program on a device.

ghost use Rattle.std.specs.Prelude.{◌≡◌, ◌≤◌, ◌⊎◌, [], vec_len, vec_capacity, None, true, IfOk, IfErr, IfSome};
ghost use Rattle.top.specs.Answers.{AnswersBytes, AnswersLeft, IsAnswered};
ghost use Rattle.top.specs.Calls.{Call};
ghost use Rattle.top.specs.Causes.{ReadCause, WriteCause};
ghost use Rattle.device_run.specs.Keepers.{Kept, KeptDevices};
ghost use Rattle.top.specs.Internal.Served.{NeedsWorkers};
ghost use Rattle.top.specs.Internal.Steps.{ReadsAnswer};
ghost use Rattle.top.specs.Ends.{ends};
ghost use Rattle.answer.specs.Inputs.{file_of};
ghost use Rattle.top.specs.Takes.{TakesAll, TakesFew, file_in};
ghost use Rattle.top.specs.Outcomes.{IsUnanswered};
ghost use Rattle.top.specs.Told.{AreTold};
ghost use Rattle.top.specs.Workers.{needs_workers};
ghost use Rattle.cli.specs.Commands.{IsBounded};

use crate::exec::execute_file;
use crate::flights::flight_file;
use crate::input::{Input, input_of};
use crate::reply::{Reply, still};
use crate::run::run_file;
use crate::summary::summarize;
use crate::telling::{deliver, reserved, untold};
use crate::{Ended, Status};
use answer::{file_of, form_of, over_input};
use base::NoMemory;
use base_io::{Gate, Sink, Source, Tap};
use cli::Command;
use device_run::Keep;
use flight_file::FlightPlan;
use std::alloc::Global;
use std::sync::Wait;
use std::thread::Threads;

fn answer_bytes<R: Threads + Wait + Sync, G: Gate + Sync, K: Keep>(
    rt: &R,
    alloc: Global,
    command: &Command,
    bytes: &[u8],
    gate: &G,
    keeper: &mut K,
) -> Result<Reply, NoMemory>
    requires { NeedsWorkers command.now }
    ensures answer { IfOk result (λ reply. Kept (K.kept keeper.old) (K.kept keeper.new) (λ devices. AnswersBytes command.now bytes.now devices reply)) }
{
    match command {
        Command::Run {
            options,
            trace,
            tight,
        } => run_file(rt, alloc, *options, *trace, *tight, bytes, gate, keeper),
        Command::Exec { options, trace } => {
            execute_file(rt, alloc, *options, *trace, bytes, gate, keeper)
        },
        Command::Summary {
            number,
            passes,
            options,
        } => summarize(rt, alloc, *number, *passes, *options, gate, keeper),
        Command::Flight {
            options,
            persist,
            depth,
        } => {
            let plan = FlightPlan {
                options: *options,
                persist,
                depth: *depth,
            };
            flight_file(rt, alloc, &plan, bytes, gate, keeper)
        }
        Command::Frame(_) | Command::Submission(_) | Command::Gen { .. } | Command::Audit => {
            unreachable!()
        }
    }
}

// The answer to the input that is read, or the status where there is none.
fn answer_input<R: Threads + Wait + Sync, G: Gate + Sync, I: Source, K: Keep>(
    rt: &R,
    alloc: Global,
    command: &Command,
    input: &mut I,
    gate: &G,
    keeper: &mut K,
) -> Result<Reply, Status>
    requires { NeedsWorkers command.now }
    ensures answer { IfOk result (λ reply. Kept (K.kept keeper.old) (K.kept keeper.new) (λ devices. AnswersLeft command.now (I.left input.old) devices reply)) }
    ensures none { IfErr result (λ status. (status ≡ Status.ReadFault) ⊎ (status ≡ Status.NoMemory)) }
    ensures read { ReadsAnswer (I.faults input.old) (I.faults input.new) result }
    ensures taken { TakesFew (file_of command.now) (I.left input.old) (I.left input.new) }
    ensures whole { IfOk result (λ _. TakesAll (file_of command.now) (I.left input.old) (I.left input.new)) }
    ensures unread { file_of command.now ≡ None → input.new ≡ input.old }
    ensures unkept { IfErr result (λ status. status ≡ Status.ReadFault → keeper.new ≡ keeper.old) }
{
    match input_of(alloc, file_of(command), input)? {
        Input::Bytes(bytes) => {
            Ok(answer_bytes(rt, alloc, command, bytes.as_slice(), gate, keeper)?)
        },
        Input::Over(file) => Ok(still(over_input(alloc, form_of(command), file)?)),
    }
}

// With room for all taps.
fn answer<R: Threads + Wait + Sync, I: Source, O: Sink, G: Gate + Sync, K: Keep>(
    rt: &R,
    alloc: Global,
    command: &Command,
    input: &mut I,
    output: &mut O,
    gate: &G,
    taps: &mut Vec<Box<dyn Tap>>,
    keeper: &mut K,
    room: Ended,
) -> Ended
    requires served { NeedsWorkers command.now }
    requires spent { (room.spent.items ≡ []) × (vec_len taps.old ≤ vec_capacity room.spent) }
    requires places { (room.places.items ≡ []) × (vec_len taps.old ≤ vec_capacity room.places) }
    ensures answered { IsAnswered command.now (I.left input.old) (O.taken output.old) (O.taken output.new) (AreTold (λ b. heard b) (λ b. finished b) taps.old.items taps.new.items result.spent.items result.places.items) (KeptDevices (K.kept keeper.old) (K.kept keeper.new)) result.status }
    ensures read { ReadCause (I.faults input.old) (I.faults input.new) result.status }
    ensures write { WriteCause (O.faults output.old) (O.faults output.new) result.status }
    ensures taken { TakesFew (file_of command.now) (I.left input.old) (I.left input.new) }
    ensures whole { ¬ IsUnanswered result.status → TakesAll (file_of command.now) (I.left input.old) (I.left input.new) }
    ensures unread { file_of command.now ≡ None → input.new ≡ input.old }
    ensures unwritten { IsUnanswered result.status → output.new ≡ output.old }
{
    match answer_input(rt, alloc, command, input, gate, keeper) {
        Ok(reply) => deliver(&reply, output, taps, room),
        Err(status) => untold(alloc, status),
    }
}

/// Does the work of a command that needs workers: room for all taps is taken before anything is read.
#[tactic(auto, using(crate::proofs::CallLemmas::called, crate::proofs::CallLemmas::nothing))]
pub fn on_device<R: Threads + Wait + Sync, I: Source, O: Sink, G: Gate + Sync, K: Keep>(
    rt: &R,
    alloc: Global,
    command: &Option<Command>,
    input: &mut I,
    output: &mut O,
    gate: &G,
    taps: &mut Vec<Box<dyn Tap>>,
    keeper: &mut K,
) -> Ended
    requires needed { needs_workers command.now ≡ true }
    requires bounded { IfSome command.now IsBounded }
    ensures call { let seen = ends I.left I.faults O.taken O.faults in
        Call command.now (seen input.old output.old) (seen input.new output.new) (AreTold (λ b. heard b) (λ b. finished b) taps.old.items taps.new.items result.spent.items result.places.items) (KeptDevices (K.kept keeper.old) (K.kept keeper.new)) result.status }
    ensures unread { file_in command.now ≡ None → input.new ≡ input.old }
    ensures unwritten { IsUnanswered result.status → output.new ≡ output.old }
{
    let Some(command) = command else {
        unreachable!()
    };
    let Ok(room) = reserved(alloc, taps.len()) else {
        return untold(alloc, Status::NoMemory);
    };
    answer(rt, alloc, command, input, output, gate, taps, keeper, room)
}
