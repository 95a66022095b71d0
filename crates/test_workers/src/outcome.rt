//! What tests ask of a device that was run. So one function lets the device go.

use crate::programs::is_over;
use base::{Event, List, NoMemory};
use base_io::Gate;
use check_program::Checked;
use device::Device;
use device_drive::tended;
use device_workers::run_workers;
use std::alloc::Global;
use std::sync::Wait;
use std::thread::Threads;

#[derive(Drop)]
pub struct Outcome {
    // It has come to its end with the right bytes, it is of the program, and it has no moves left that the seed gives.
    pub is_whole: bool,
    pub history: List<Event>,
}

// Whether a device is of the program and at its end, with the moves of the seed.
fn is_whole(
    alloc: Global,
    program: &Checked,
    device: &Device,
    tend: Option<u64>,
) -> Result<bool, NoMemory> {
    let moved = tended(alloc, program, device, tend)?;
    let all = tend.is_none() || device.moves_left() == 0;
    Ok(moved && all && device.belongs(program, 0) && is_over(device))
}

/// What is asked of a device.
pub fn seen(
    alloc: Global,
    program: &Checked,
    device: &Device,
    tend: Option<u64>,
) -> Result<Outcome, NoMemory> {
    let is_whole = is_whole(alloc, program, device, tend)?;
    Ok(Outcome {
        is_whole,
        history: List::from_slice(alloc, device.history())?,
    })
}

/// What workers leave.
pub fn run_by<R: Threads + Wait + Sync, G: Gate + Sync>(
    rt: &R,
    alloc: Global,
    program: &Checked,
    workers: u32,
    tend: Option<u64>,
    gate: &G,
) -> Result<Outcome, NoMemory> {
    if workers == 0 || workers > 16 {
        return Err(NoMemory);
    }
    let device = run_workers(rt, alloc, program, workers, tend, gate)?;
    seen(alloc, program, &device, tend)
}
