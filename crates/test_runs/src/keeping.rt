//! Devices that a keeper is handed, and calls that have no leave to wait.

ghost use Rattle.std.specs.Prelude.{IfSome};
ghost use Rattle.cli.specs.Commands.{IsBounded};

use crate::auditing::RUN;
use crate::executing::{FILL, ONE_FILL};
use crate::flying::{COUNTS, lines_of};
use base::{List, NoMemory};
use base_io::{MemorySink, SteadySource};
use cli::Command;
use report::trace_text;
use std::alloc::Global;
use std::sync::Wait;
use std::test::Fail;
use std::thread::Threads;
use test_calls::{Answer, KeepAll, RanDevice, Status, answer_kept, command_of, without_workers};

// A command line, a file, the status, and how many events each device has that is handed over for it.
const KEPT: [(&str, &str, Status, &[usize]); 6] = [
    ("run --trace --workers 4", ONE_FILL, Status::Done, &[8]),
    ("exec --trace", FILL, Status::Done, &[8]),
    ("exec --trace --tend 5", FILL, Status::Done, &[264]),
    ("exec --trace", "", Status::Refused, &[]),
    ("check", FILL, Status::Done, &[]),
    ("audit", RUN, Status::Done, &[]),
];

fn are_long(devices: &[RanDevice], events: &[usize]) -> bool {
    if devices.len() != events.len() {
        return false;
    }
    for (ran, count) in devices.iter().zip(events) {
        let device = ran.device();
        if !device.complete() || device.history().len() != *count {
            return false;
        }
    }
    true
}

// Whether a text ends with the history of each device that was handed over.
fn ends_so(alloc: Global, answer: &Answer, devices: &[RanDevice]) -> Result<bool, NoMemory> {
    for ran in devices {
        let trace = trace_text(alloc, ran.device().history())?;
        if !answer.text().ends_with(trace.as_slice()) {
            return Ok(false);
        }
    }
    Ok(true)
}

fn is_kept<R: Threads + Wait + Sync>(
    rt: &R,
    alloc: Global,
    (line, file, status, events): (&str, &str, Status, &[usize]),
) -> Result<bool, NoMemory> {
    let mut keeper = KeepAll::new(alloc);
    let answer = answer_kept(rt, alloc, line, file.as_bytes(), &mut keeper)?;
    let ends = ends_so(alloc, &answer, keeper.devices())?;
    Ok(ends && answer.status == Some(status) && are_long(keeper.devices(), events))
}

// The device that is handed over is that whose history is printed.
#[test]
fn kept(rt: HostRuntime) -> Result<(), Fail> {
    for row in &KEPT {
        assert!(&rt; is_kept(&rt, rt.alloc(), *row)?, "{}", row.0);
    }
    Ok(())
}

// How many devices are handed over for a command line and a file.
fn count_kept<R: Threads + Wait + Sync>(
    rt: &R,
    alloc: Global,
    line: &str,
    file: &str,
) -> Result<usize, NoMemory> {
    let mut keeper = KeepAll::new(alloc);
    let _answer = answer_kept(rt, alloc, line, file.as_bytes(), &mut keeper)?;
    Ok(keeper.devices().len())
}

// One of a summary; of three frames that fly one for each window.
#[test]
fn summary_kept(rt: HostRuntime) -> Result<(), Fail> {
    let alloc = rt.alloc();
    let line = "gen --number 7 --passes 24 --summary";
    assert_eq!(&rt; count_kept(&rt, alloc, line, "")?, 1);
    let file = lines_of(alloc, COUNTS, 3)?;
    for (line, count) in &[("flight --depth 2", 2), ("flight --depth 1", 3)] {
        assert_eq!(&rt; count_kept(&rt, alloc, line, file.as_str())?, *count);
    }
    Ok(())
}

// Whether a call without leave to wait gives this status and this text; none where workers are needed.
fn gives_without<R: Threads + Sync>(
    rt: &R,
    alloc: Global,
    command: &Option<Command>,
    file: &str,
    status: Option<Status>,
    text: &str,
) -> Result<bool, NoMemory>
    requires { IfSome command.now IsBounded }
{
    let mut source = SteadySource::new(List::from_slice(alloc, file.as_bytes())?, 900);
    let mut sink = MemorySink::new(alloc, 1000, 9, List::new(alloc))?;
    let given = without_workers(rt, alloc, command, &mut source, &mut sink);
    Ok(given == status && sink.bytes() == text.as_bytes())
}

fn is_met<R: Threads + Sync>(
    rt: &R,
    alloc: Global,
    (line, file, status, text): (&str, &str, Option<Status>, &str),
) -> Result<bool, NoMemory> {
    let command = command_of(alloc, line)?;
    gives_without(rt, alloc, &command, file, status, text)
}

// A command line, a file, the status and the text.
const WITHOUT: [(&str, &str, Option<Status>, &str); 4] = [
    (
        "audit",
        RUN,
        Some(Status::Done),
        "run 8 events\nreadback 0 16\n07000000070000000700000007000000\n",
    ),
    ("exec", FILL, None, ""),
    ("gen --number 7 --summary --passes 3", "", None, ""),
    ("nothing", "", Some(Status::Words), "words\n"),
];

#[test]
fn audits_without_waiting(rt: HostRuntime) -> Result<(), Fail> {
    for row in &WITHOUT {
        assert!(&rt; is_met(&rt, rt.alloc(), *row)?, "{}", row.0);
    }
    Ok(())
}
