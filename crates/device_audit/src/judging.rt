//! A trace is judged.

ghost use Rattle.std.specs.Prelude.{◌≡◌, ◌≤◌, ◌↔◌, length, IfOk, IsTrue};
ghost use Rattle.device_audit.specs.Runs.{IsRun};
ghost use Rattle.device_model.specs.Coming.{AreEnabled};
ghost use Rattle.device_audit.specs.Verdicts.{is_run, ran, AllReadApart, IfRun, Says};
ghost use Rattle.device_audit.specs.declared.verdict.Verdict.{Verdict};
ghost use Rattle.device_model.specs.Devices.{IsComplete};

use crate::follower::Follower;
use crate::following::{count_moves, follow_all};
use crate::places::places_of;
use crate::undone::least_undone;
use crate::verdict::Verdict;
use base::{Event, NoMemory};
use check_program::Checked;
use device::Device;
use device_model::device_laws;
use std::alloc::Global;
use std::thread::Threads;

// The verdict where each event is enabled in its turn.
fn ended(
    alloc: Global,
    program: &Checked,
    device: Device,
    events: &[Event],
) -> Result<Verdict, NoMemory>
    requires enabled { AreEnabled program.now.program 0 events.now (length events.now) }
    requires program { device.program ≡ program.now.program }
    requires device { IsComplete (ran program.now.program events.now) → device ≡ ran program.now.program events.now }
    ensures { IfOk result (Says program.now.program events.now) }
{
    match least_undone(alloc, events, device.node_count())? {
        Some(node) => Ok(Verdict::Unfinished { node }),
        None => Ok(Verdict::Run(device)),
    }
}

fn judged<R: Threads + Sync>(
    rt: &R,
    alloc: Global,
    program: &Checked,
    events: &[Event],
) -> Result<Verdict, NoMemory>
    requires { length events.now ≤ 65536 }
    ensures { IfOk result (Says program.now.program events.now) }
{
    let places = places_of(alloc, events)?;
    let mut follower = Follower::new(rt, alloc, program, count_moves(events), &places)?;
    let stray = follow_all(rt, alloc, &mut follower, events);
    let device = follower.into_device();
    match stray? {
        Some(at) => Ok(Verdict::NotEnabled { at }),
        None => ended(alloc, program, device, events),
    }
}

/// Whether the events are a run of the program: they are made on a device that is opened with zeros, as long as they are
/// enabled. Of a run the answer has the device, whose history they are.
pub fn audit<R: Threads + Sync>(
    rt: &R,
    alloc: Global,
    program: &Checked,
    events: &[Event],
) -> Result<Verdict, NoMemory>
    requires { length events.now ≤ 65536 }
    ensures says { IfOk result (Says program.now.program events.now) }
    ensures only { IfOk result (λ verdict. (other : Verdict) → Says program.now.program events.now other → other ≡ verdict) }
    ensures run { IfOk result (λ verdict. IsTrue (is_run verdict) ↔ IsRun program.now.program events.now) }
    ensures complete { IfOk result (IfRun IsComplete) }
    ensures apart { IfOk result (IfRun AllReadApart) }
{
    device_laws();
    let _faultless = program.shaped().program();
    judged(rt, alloc, program, events)
}
