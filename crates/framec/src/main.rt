//! The program: the top call is made for the command of the words, over standard input or the files that they name.
#![tactic(auto)]

mod disk;
mod input;

ghost use Rattle.std.specs.Prelude.{IfSome};
ghost use Rattle.cli.specs.Commands.{IsBounded};

use base::NoMemory;
use base_io::{CountTap, Sink, Source, Tap, WriteSink};
use cli::{Command, FileName, Line, line_of};
use disk::Disk;
use progress::{Meter, MeterGate, MeterSink};
use std::io::{Eprint, Input, IsTerminal, Print};
use std::process::ExitCode;
use std::rt::{Env, Files};
use std::sync::Wait;
use std::thread::Threads;
use std::time::Clock;
use std::{env, io, thread};
use top::{Ended, KeepNone, Opener, Status, framec, framec_files};

// The words after the program's name. Where one of them is no text there are none, which is no command line.
fn words_of<R: Env + AllocGlobal>(rt: &R) -> Result<Vec<String>, NoMemory> {
    let mut words = Vec::new(rt.alloc());
    match env::args(rt) {
        Ok(all) => {
            for word in all.skip(1) {
                words.push(word)?;
            }
        }
        Err(e) => {
            if e.kind() == io::ErrorKind::OutOfMemory {
                return Err(NoMemory);
            }
        }
    }
    Ok(words)
}

// The top call over one source, with one tap that counts events, and devices let go once they have run.
fn answer_source<R: Threads + Wait + Sync + AllocGlobal, I: Source, O: Sink>(
    rt: &R,
    meter: &Meter,
    command: &Option<Command>,
    input: &mut I,
    output: &mut O,
) -> Status
    requires { IfSome command.now IsBounded }
{
    let Ok(tap) = Box::new(rt.alloc(), CountTap::new()) else {
        return Status::NoMemory;
    };
    let mut taps: Vec<Box<dyn Tap>> = Vec::new(rt.alloc());
    if taps.push(tap).is_err() {
        return Status::NoMemory;
    }
    let gate = MeterGate::new(meter);
    let Ended {
        status,
        spent: _,
        places: _,
    } = framec(
        rt,
        rt.alloc(),
        command,
        input,
        output,
        &gate,
        &mut taps,
        &mut KeepNone,
    );
    status
}

// The top call over the one file of a line, or over standard input.
fn answer_one<R: Threads + Wait + Sync + Eprint + Files + Input + AllocGlobal, O: Sink>(
    rt: &R,
    meter: &Meter,
    command: &Option<Command>,
    file: Option<&FileName>,
    output: &mut O,
) -> Status
    requires { IfSome command.now IsBounded }
{
    let mut disk = Disk::new(rt, meter);
    let Some(file) = file else {
        return answer_source(rt, meter, command, &mut disk.standard(), output);
    };
    let status = answer_source(rt, meter, command, &mut disk.open(file), output);
    if status == Status::ReadFault {
        disk.unread(file);
    }
    status
}

// What a line comes to, and the number of its status.
fn answer<R: Threads + Wait + Sync + Eprint + Files + Input + Print + AllocGlobal>(
    rt: &R,
    meter: &Meter,
    command: &Option<Command>,
    files: &[FileName],
) -> u8
    requires { IfSome command.now IsBounded }
{
    let mut output = MeterSink::new(rt, meter, WriteSink::new(io::writer(rt)));
    let status = match command {
        Some(Command::Submission(asked)) if files.len() > 1 => {
            let command = Command::Submission(*asked);
            let mut disk = Disk::new(rt, meter);
            framec_files(rt.alloc(), &command, files, &mut disk, &mut output)
        }
        _ => answer_one(rt, meter, command, files.first(), &mut output).number(),
    };
    meter.end(rt);
    status
}

// The same, and meanwhile a terminal is told how far it is.
fn answer_and_show<R: Threads + Wait + Sync + Clock + Eprint + Files + Input + Print + AllocGlobal>(
    rt: &R,
    shows: bool,
    command: &Option<Command>,
    files: &[FileName],
) -> u8
    requires { IfSome command.now IsBounded }
{
    let meter = Meter::new(files.len() as u64);
    if !shows {
        return answer(rt, &meter, command, files);
    }
    let (_, status) = thread::join(
        rt,
        || meter.show(rt),
        || -> u8
            requires { IfSome command.now IsBounded }
        { answer(rt, &meter, command, files) },
    );
    status
}

// Words that are no command line have their answer on standard output, and on standard error how help is called.
fn tell_help<R: Eprint>(rt: &R) {
    let _ = eprintln!(rt; "framec: this is no command line; ./framec --help lists the commands");
}

fn main(rt: HostRuntime) -> ExitCode {
    let alloc = rt.alloc();
    let Ok(words) = words_of(&rt) else {
        return ExitCode::from(Status::NoMemory.number());
    };
    let Ok(line) = line_of(alloc, &words) else {
        return ExitCode::from(Status::NoMemory.number());
    };
    let shows = rt.stderr().is_terminal();
    match line {
        Some(Line { command, files }) => {
            ExitCode::from(answer_and_show(&rt, shows, &Some(command), &files))
        }
        None => {
            let status = answer_and_show(&rt, false, &None, &[]);
            if status == Status::Words.number() {
                tell_help(&rt);
            }
            ExitCode::from(status)
        }
    }
}
