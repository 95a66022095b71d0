use crate::alone::is_own_first;
use crate::outcome::{Outcome, run_by};
use crate::programs::{APART, BEHIND, CHAINED, THREE, checked};
use base::{Event, NoMemory};
use base_io::IdleGate;
use check_program::Checked;
use std::alloc::Global;
use std::sync::Wait;
use std::test::Fail;
use std::thread::Threads;
use test_gate::Meeting;

// One worker takes the nodes of its own queue first, then those of the other, and the host reads last.
const ALONE: [Event; 10] = [
    Event::Begin { node: 0 },
    Event::End { node: 0 },
    Event::Sync { node: 1 },
    Event::Sync { node: 2 },
    Event::Begin { node: 3 },
    Event::End { node: 3 },
    Event::Sync { node: 4 },
    Event::Sync { node: 5 },
    Event::Host { node: 6 },
    Event::Host { node: 7 },
];

// Whether so many commands are begun before any ends.
fn side_by_side(history: &[Event], commands: usize) -> bool {
    let first_end = history
        .iter()
        .position(|event| matches!(event, Event::End { .. }));
    let begun = history
        .iter()
        .take(first_end.unwrap_or(0))
        .filter(|event| matches!(event, Event::Begin { .. }));
    begun.count() == commands
}

fn are_side_by_side(outcome: &Outcome, commands: u32, gate: &Meeting) -> bool {
    gate.took_place() && side_by_side(&outcome.history, commands as usize) && outcome.is_whole
}

// Whether so many workers bring as many commands to a gate at the same time.
fn meet<R: Threads + Wait + Sync>(
    rt: &R,
    alloc: Global,
    program: &Checked,
    workers: u32,
    tend: Option<u64>,
    gate: &Meeting,
) -> Result<bool, NoMemory> {
    let outcome = run_by(rt, alloc, program, workers, tend, gate)?;
    Ok(are_side_by_side(&outcome, workers, gate))
}

// Whether a worker that waits while the other one computes is called for the second of two commands, which meet.
fn is_called<R: Threads + Wait + Sync>(
    rt: &R,
    alloc: Global,
    program: &Checked,
    gate: &Meeting,
) -> Result<bool, NoMemory> {
    let outcome = run_by(rt, alloc, program, 2, None, gate)?;
    Ok(gate.took_place() && outcome.is_whole)
}

fn is_alone<R: Threads + Wait + Sync>(
    rt: &R,
    alloc: Global,
    program: &Checked,
) -> Result<bool, NoMemory> {
    let outcome = run_by(rt, alloc, program, 1, None, &IdleGate)?;
    Ok(outcome.is_whole && outcome.history.as_slice() == ALONE.as_slice())
}

// Whether workers bring a program to its end, with the moves of the seed beside them.
fn comes_through<R: Threads + Wait + Sync>(
    rt: &R,
    alloc: Global,
    program: &Checked,
    workers: u32,
    seed: u64,
) -> Result<bool, NoMemory> {
    let outcome = run_by(rt, alloc, program, workers, Some(seed), &IdleGate)?;
    Ok(outcome.is_whole)
}

// What is done with a program.
#[derive(Clone, Copy)]
enum Way {
    // Two workers meet, beside a tender with this seed if there is one.
    Meeting(Option<u64>),
    // Three workers meet.
    Three,
    // They meet behind a command for which one of them waits.
    Called,
    // One worker takes every queue.
    Alone,
    // A worker of the second queue takes its own nodes first.
    OwnFirst,
    // So many workers, and a tender with a seed.
    Tended(u32, u64),
}

fn goes<R: Threads + Wait + Sync>(
    rt: &R,
    alloc: Global,
    program: &Checked,
    way: Way,
) -> Result<bool, NoMemory> {
    match way {
        Way::Meeting(tend) => meet(rt, alloc, program, 2, tend, &Meeting::new(0, 3)),
        Way::Three => meet(rt, alloc, program, 3, None, &Meeting::of_three(0, 3, 6)),
        Way::Called => is_called(rt, alloc, program, &Meeting::new(3, 7)),
        Way::Alone => is_alone(rt, alloc, program),
        Way::OwnFirst => is_own_first(rt, alloc, program),
        Way::Tended(workers, seed) => comes_through(rt, alloc, program, workers, seed),
    }
}

// So that one function lets the program go.
fn holds<R: Threads + Wait + Sync>(
    rt: &R,
    alloc: Global,
    line: &str,
    way: Way,
) -> Result<bool, Fail> {
    let program = checked(alloc, line)?;
    Ok(goes(rt, alloc, &program, way)?)
}

#[test]
fn two_commands_meet(rt: HostRuntime) -> Result<(), Fail> {
    assert!(&rt; holds(&rt, rt.alloc(), APART, Way::Meeting(None))?);
    Ok(())
}

#[test]
fn two_commands_meet_beside_a_tender(rt: HostRuntime) -> Result<(), Fail> {
    assert!(&rt; holds(&rt, rt.alloc(), APART, Way::Meeting(Some(1)))?);
    Ok(())
}

#[test]
fn three_commands_meet(rt: HostRuntime) -> Result<(), Fail> {
    assert!(&rt; holds(&rt, rt.alloc(), THREE, Way::Three)?);
    Ok(())
}

#[test]
fn a_waiting_worker_is_called(rt: HostRuntime) -> Result<(), Fail> {
    assert!(&rt; holds(&rt, rt.alloc(), BEHIND, Way::Called)?);
    Ok(())
}

#[test]
fn one_worker_takes_every_queue(rt: HostRuntime) -> Result<(), Fail> {
    assert!(&rt; holds(&rt, rt.alloc(), APART, Way::Alone)?);
    Ok(())
}

#[test]
fn own_queue_first(rt: HostRuntime) -> Result<(), Fail> {
    assert!(&rt; holds(&rt, rt.alloc(), APART, Way::OwnFirst)?);
    Ok(())
}

// A program, how many workers, and a seed.
const ROWS: [(&str, u32, u64); 6] = [
    (APART, 1, 5),
    (APART, 4, 1),
    (APART, 16, 2),
    (CHAINED, 1, 5),
    (CHAINED, 4, 1),
    (CHAINED, 16, 2),
];

#[test]
fn a_tender_beside_workers(rt: HostRuntime) -> Result<(), Fail> {
    for (line, workers, seed) in &ROWS {
        let way = Way::Tended(*workers, *seed);
        assert!(&rt; holds(&rt, rt.alloc(), line, way)?, "{workers}");
    }
    Ok(())
}
