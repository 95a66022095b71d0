//! The top call.

ghost use Rattle.std.specs.Prelude.{◌≡◌, IfSome, None, false};
ghost use Rattle.device_run.specs.Keepers.{KeptDevices};
ghost use Rattle.top.specs.Calls.{Call};
ghost use Rattle.top.specs.Ends.{ends};
ghost use Rattle.top.specs.Takes.{file_in};
ghost use Rattle.top.specs.Outcomes.{IsUnanswered};
ghost use Rattle.top.specs.Told.{AreTold, IsUntold};
ghost use Rattle.top.specs.Workers.{needs_workers};
ghost use Rattle.cli.specs.Commands.{IsBounded};

use crate::devices::on_device;
use crate::telling::untold;
use crate::{Ended, without_workers};
use base_io::{Gate, Sink, Source, Tap};
use cli::Command;
use device_run::Keep;
use std::alloc::Global;
use std::sync::Wait;
use std::thread::Threads;

/// Does the whole work of the program for the command of its words, or for none where they are no command line: reads `input`,
/// writes a text to `output` and answers the status. No more is read than one byte over the command's limit, 16 MiB of a frame
/// or 32 MiB of a submission. Where a read fails or memory runs out, nothing is written. Where no read and no write fails, the
/// status is that of the answer and its whole text is written, unless memory runs out. Of `run`, `exec`, `gen --summary` and
/// `flight` the keeper is handed each device that has run for the answer, and then the taps are told what these devices did, one
/// tap after another, before the text is written: each until it is finished, and then it is moved to the end of the answer's
/// `spent`, and the place that it had among the taps is put at the end of `places`. Of all other commands the keeper is handed
/// nothing, and the taps are told nothing. Only these four and `audit` start threads, and `audit` does not call the gate.
pub fn framec<R: Threads + Wait + Sync, I: Source, O: Sink, G: Gate + Sync, K: Keep>(
    rt: &R,
    alloc: Global,
    command: &Option<Command>,
    input: &mut I,
    output: &mut O,
    gate: &G,
    taps: &mut Vec<Box<dyn Tap>>,
    keeper: &mut K,
) -> Ended
    requires bounded { IfSome command.now IsBounded }

    // The status, what was written, how much was read, what taps were told, and which devices the keeper was handed.
    ensures call { let seen = ends I.left I.faults O.taken O.faults in
        Call command.now (seen input.old output.old) (seen input.new output.new) (AreTold (λ b. heard b) (λ b. finished b) taps.old.items taps.new.items result.spent.items result.places.items) (KeptDevices (K.kept keeper.old) (K.kept keeper.new)) result.status }

    // Words that are no command line read nothing, nor does `gen`; a call without an answer writes nothing.
    ensures unread { file_in command.now ≡ None → input.new ≡ input.old }
    ensures unwritten { IsUnanswered result.status → output.new ≡ output.old }

    // Where no workers are needed, no tap hears anything, and the keeper is as it was.
    ensures untold { needs_workers command.now ≡ false → IsUntold taps.old.items taps.new.items result.spent.items result.places.items }
    ensures unkept { needs_workers command.now ≡ false → keeper.new ≡ keeper.old }
{
    match without_workers(rt, alloc, command, input, output) {
        Some(status) => untold(alloc, status),
        None => on_device(rt, alloc, command, input, output, gate, taps, keeper),
    }
}
