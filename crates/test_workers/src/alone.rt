//! One worker, and then a tender, on a device of their own.

use crate::outcome::{Outcome, seen};
use base::{Event, NoMemory};
use base_io::IdleGate;
use check_program::Checked;
use device::Device;
use device_cache::MOVES;
use device_workers::{Alone, tend_through, work_through};
use std::alloc::Global;
use std::sync::Wait;
use std::thread::Threads;

const SIZES: [u32; 2] = [16, 16];

// What a worker of the second queue does, and then a tender.
fn done<R: Threads + Wait + Sync>(
    rt: &R,
    alloc: Global,
    program: &Checked,
    alone: &mut Alone,
) -> Result<Outcome, NoMemory> {
    work_through(rt, alloc, alone, 1, &IdleGate)?;
    tend_through(alone, 3, 16, &SIZES);
    seen(alloc, program, &alone.device, Some(3))
}

// The same, on a device of their own.
fn worked<R: Threads + Wait + Sync>(
    rt: &R,
    alloc: Global,
    program: &Checked,
) -> Result<Outcome, NoMemory> {
    let mut alone = Alone {
        device: Device::new(alloc, program, 0, MOVES)?,
    };
    done(rt, alloc, program, &mut alone)
}

// Whether the node of the worker's own queue is the first one.
pub fn is_own_first<R: Threads + Wait + Sync>(
    rt: &R,
    alloc: Global,
    program: &Checked,
) -> Result<bool, NoMemory> {
    let outcome = worked(rt, alloc, program)?;
    Ok(outcome.is_whole && outcome.history.first() == Some(&Event::Begin { node: 3 }))
}
