//! A frame as given and with its passes on chosen queues, run on a device.

use base::NoMemory;
use base_io::IdleGate;
use std::alloc::Global;
use std::sync::Wait;
use std::test::Fail;
use std::thread::Threads;
use test_calls::{Status, answer_of};

fn gives_text<R: Threads + Wait + Sync>(
    rt: &R,
    alloc: Global,
    frame: &[u8],
    text: &[u8],
) -> Result<bool, NoMemory> {
    let answer = answer_of(rt, alloc, "run", frame, &IdleGate)?;
    Ok(answer.status == Some(Status::Done) && answer.text() == text)
}

// Whether two frames give the same text.
fn run_alike<R: Threads + Wait + Sync>(
    rt: &R,
    alloc: Global,
    one: &[u8],
    other: &[u8],
) -> Result<bool, NoMemory> {
    let answer = answer_of(rt, alloc, "run", one, &IdleGate)?;
    gives_text(rt, alloc, other, answer.text())
}

// Whether a pass moves, and the text stays the same.
fn moves<R: Threads + Wait + Sync>(rt: &R, alloc: Global, frame: &[u8]) -> Result<bool, NoMemory> {
    let chosen = answer_of(rt, alloc, "auto", frame, &IdleGate)?;
    Ok(chosen.text() != frame && run_alike(rt, alloc, frame, chosen.text())?)
}

fn generated_moves<R: Threads + Wait + Sync>(rt: &R, alloc: Global) -> Result<bool, NoMemory> {
    let frame = answer_of(rt, alloc, "gen --number 7 --passes 256", b"", &IdleGate)?;
    moves(rt, alloc, frame.text())
}

// A frame of 256 passes has the same exports on the queues that are chosen, as the device holds them.
#[test]
fn same_exports(rt: HostRuntime) -> Result<(), Fail> {
    assert!(&rt; generated_moves(&rt, rt.alloc())?);
    Ok(())
}
