//! Taps that are finished at an event, and taps that stay.

ghost use Rattle.std.specs.Prelude.{IfSome};
ghost use Rattle.cli.specs.Commands.{IsBounded};

use crate::executing::{FILL, ONE_FILL};
use base::{Event, List, NoMemory};
use base_io::{IdleGate, ListTap, SteadySink, SteadySource, Tap, Tell};
use cli::Command;
use std::alloc::Global;
use std::cell::Cell;
use std::rc::Rc;
use std::sync::Wait;
use std::test::Fail;
use std::thread::Threads;
use test_calls::{Ended, KeepNone, command_of, framec};

// Is finished at an event with this number, from 1. What it heard before is counted outside.
#[derive(Drop)]
struct Until {
    last: u64,
    seen: u64,
    heard: Rc<Cell<u64>>,
}

impl Tap for Until {
    ghost use Rattle.std.specs.Prelude.{◌≤◌, None};

    ghost heard = { λ _. None };

    ghost finished = { λ t. t.last ≤ t.seen };

    fn told(&mut self, _event: &Event) -> Tell {
        self.seen = self.seen.saturating_add(1);
        if self.seen >= self.last {
            return Tell::Finished;
        }
        self.heard.set(self.heard.get().saturating_add(1));
        Tell::More
    }
}

fn finished_at(last: u64, heard: &Rc<Cell<u64>>) -> Result<Until, NoMemory> {
    Ok(Until {
        last,
        seen: 0,
        heard: heard.clone()?,
    })
}

// A command line and a file, the events at which taps are finished, or none, how many stay, the places of the others, and how
// many events all heard. Behind them stands a tap with room for eight events.
struct Row {
    line: &'static str,
    file: &'static str,
    lasts: &'static [u64],
    stay: usize,
    places: &'static [usize],
    heard: u64,
}

// Eight events: one tap hears them all, one is finished at the third, two at the first. With cache moves there are more events
// than the last tap has room for, and without a file there is none.
const ROWS: [Row; 6] = [
    Row {
        line: "run",
        file: ONE_FILL,
        lasts: &[3],
        stay: 1,
        places: &[0],
        heard: 2,
    },
    Row {
        line: "run",
        file: ONE_FILL,
        lasts: &[9, 1],
        stay: 2,
        places: &[1],
        heard: 8,
    },
    Row {
        line: "exec",
        file: FILL,
        lasts: &[1, 9, 1],
        stay: 2,
        places: &[0, 2],
        heard: 8,
    },
    Row {
        line: "exec",
        file: FILL,
        lasts: &[4, 4, 8],
        stay: 1,
        places: &[0, 1, 2],
        heard: 13,
    },
    Row {
        line: "exec --tend 1",
        file: FILL,
        lasts: &[],
        stay: 0,
        places: &[0],
        heard: 0,
    },
    Row {
        line: "exec",
        file: "",
        lasts: &[1, 1],
        stay: 3,
        places: &[],
        heard: 0,
    },
];

fn taps_of(
    alloc: Global,
    lasts: &[u64],
    heard: &Rc<Cell<u64>>,
) -> Result<Vec<Box<dyn Tap>>, NoMemory> {
    let mut taps: Vec<Box<dyn Tap>> = Vec::new(alloc);
    for last in lasts {
        taps.push(Box::new(alloc, finished_at(*last, heard)?)?)?;
    }
    taps.push(Box::new(alloc, ListTap::new(alloc, 8)?)?)?;
    Ok(taps)
}

fn called<R: Threads + Wait + Sync>(
    rt: &R,
    alloc: Global,
    command: &Option<Command>,
    file: &str,
    taps: &mut Vec<Box<dyn Tap>>,
) -> Result<Ended, NoMemory>
    requires { IfSome command.now IsBounded }
{
    let mut source = SteadySource::new(List::from_slice(alloc, file.as_bytes())?, 900);
    let sink = &mut SteadySink::new();
    Ok(framec(
        rt,
        alloc,
        command,
        &mut source,
        sink,
        &IdleGate,
        taps,
        &mut KeepNone,
    ))
}

fn is_left(ended: &Ended, row: &Row) -> bool {
    let places = row.places;
    ended.spent.len() == places.len() && ended.places.as_slice() == places
}

// Whether these taps stay and are spent as the row says.
fn leaves<R: Threads + Wait + Sync>(
    rt: &R,
    alloc: Global,
    command: &Option<Command>,
    row: &Row,
    taps: &mut Vec<Box<dyn Tap>>,
) -> Result<bool, NoMemory>
    requires { IfSome command.now IsBounded }
{
    let ended = called(rt, alloc, command, row.file, taps)?;
    Ok(is_left(&ended, row) && taps.len() == row.stay)
}

fn hear<R: Threads + Wait + Sync>(
    rt: &R,
    alloc: Global,
    command: &Option<Command>,
    row: &Row,
    heard: &Rc<Cell<u64>>,
) -> Result<bool, NoMemory>
    requires { IfSome command.now IsBounded }
{
    let mut taps = taps_of(alloc, row.lasts, heard)?;
    leaves(rt, alloc, command, row, &mut taps)
}

fn is_heard<R: Threads + Wait + Sync>(
    rt: &R,
    alloc: Global,
    command: &Option<Command>,
    row: &Row,
) -> Result<bool, NoMemory>
    requires { IfSome command.now IsBounded }
{
    let heard = Rc::new(alloc, Cell::new(0u64))?;
    Ok(hear(rt, alloc, command, row, &heard)? && heard.get() == row.heard)
}

fn is_met<R: Threads + Wait + Sync>(rt: &R, alloc: Global, row: &Row) -> Result<bool, NoMemory> {
    let command = command_of(alloc, row.line)?;
    is_heard(rt, alloc, &command, row)
}

#[test]
fn taps(rt: HostRuntime) -> Result<(), Fail> {
    for row in &ROWS {
        assert!(&rt; is_met(&rt, rt.alloc(), row)?, "{}", row.line);
    }
    Ok(())
}
