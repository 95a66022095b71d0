//! A command line, and the status that it ends with.

ghost use Rattle.std.specs.Prelude.{IfOk, IfSome};
ghost use Rattle.cli.specs.Commands.{IsBounded};

use base::NoMemory;
use base_io::{Gate, Sink, Source, Tap};
use cli::{Command, line_of};
use std::alloc::Global;
use std::sync::Wait;
use std::thread::Threads;
use top::{Ended, Keep, Status, framec};

fn words_of(alloc: Global, line: &str) -> Result<Vec<String>, NoMemory> {
    let mut words = Vec::new(alloc);
    for word in line.split_whitespace() {
        words.push(String::from_str(alloc, word)?)?;
    }
    Ok(words)
}

/// The command of a line; none where it is no command line.
pub fn command_of(alloc: Global, line: &str) -> Result<Option<Command>, NoMemory>
    ensures { IfOk result (λ command. IfSome command IsBounded) }
{
    let words = words_of(alloc, line)?;
    match line_of(alloc, &words)? {
        Some(line) => Ok(Some(line.command)),
        None => Ok(None),
    }
}

// The status, if no tap was finished.
fn unspent(ended: Ended) -> Option<Status> {
    if ended.spent.is_empty() && ended.places.is_empty() {
        Some(ended.status)
    } else {
        None
    }
}

fn called<R: Threads + Wait + Sync, I: Source, O: Sink, G: Gate + Sync, K: Keep>(
    rt: &R,
    alloc: Global,
    command: &Option<Command>,
    input: &mut I,
    output: &mut O,
    gate: &G,
    keeper: &mut K,
) -> Option<Status>
    requires { IfSome command.now IsBounded }
{
    let mut taps: Vec<Box<dyn Tap>> = Vec::new(alloc);
    unspent(framec(rt, alloc, command, input, output, gate, &mut taps, keeper))
}

/// The status of a command line without taps, with this keeper; none if a tap is finished all the same.
pub fn status_of<R: Threads + Wait + Sync, I: Source, O: Sink, G: Gate + Sync, K: Keep>(
    rt: &R,
    alloc: Global,
    line: &str,
    input: &mut I,
    output: &mut O,
    gate: &G,
    keeper: &mut K,
) -> Result<Option<Status>, NoMemory> {
    let command = command_of(alloc, line)?;
    Ok(called(rt, alloc, &command, input, output, gate, keeper))
}
