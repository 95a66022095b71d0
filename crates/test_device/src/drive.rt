ghost use Rattle.std.specs.Prelude.{IfOk};
ghost use Rattle.check_program.specs.Sound.{IsSound};
ghost use Rattle.device_model.specs.Devices.{NoneBegun};

use base::{CacheMove, Event, MemoryRange, MoveKind, NoMemory};
use check_program::{Checked, check};
use device::Device;
use device_cache::MOVES;
use device_drive::{drive, tended};
use program::{Program, ValidProgram, validate_program};
use std::alloc::Global;
use std::test::Fail;
use std::thread::Threads;
use test_sketch::{SketchError, sketched_program};

// A fill on one queue; the other waits for it, and copies what it stored for the host.
const LINE: &str =
    "plain:16 plain:16 buffer:16:0:0:shared buffer:16:1:0 read:1 ; graphics fill:0:16 signal:1 ; transfer wait:0:1 copy:0:1:16 all:COPY,TRANSFER_WRITE>HOST,HOST_READ signal:1";

const BYTES: [u8; 16] = [7, 0, 0, 0, 7, 0, 0, 0, 7, 0, 0, 0, 7, 0, 0, 0];

const ALONE: [Event; 9] = [
    Event::Begin { node: 0 },
    Event::End { node: 0 },
    Event::Sync { node: 1 },
    Event::Sync { node: 2 },
    Event::Begin { node: 3 },
    Event::End { node: 3 },
    Event::Sync { node: 4 },
    Event::Sync { node: 5 },
    Event::Host { node: 6 },
];

// With the first two moves of seed 1, by the generator's published C code.
const MOVED: [Event; 11] = [
    Event::Move(CacheMove {
        kind: MoveKind::Fill,
        agent: 5,
        range: MemoryRange {
            memory: 1,
            start: 10,
            len: 5,
        },
    }),
    Event::Begin { node: 0 },
    Event::Move(CacheMove {
        kind: MoveKind::WriteBack,
        agent: 8,
        range: MemoryRange {
            memory: 0,
            start: 3,
            len: 10,
        },
    }),
    Event::End { node: 0 },
    Event::Sync { node: 1 },
    Event::Sync { node: 2 },
    Event::Begin { node: 3 },
    Event::End { node: 3 },
    Event::Sync { node: 4 },
    Event::Sync { node: 5 },
    Event::Host { node: 6 },
];

// How many moves a device has room for, the seed of a run, its whole history where it is told, another seed, and whether the run
// has made the moves of that one.
struct Row {
    moves: u32,
    tend: Option<u64>,
    history: Option<&'static [Event]>,
    asked: Option<u64>,
    is: bool,
}

const ROWS: [Row; 7] = [
    Row {
        moves: 2,
        tend: None,
        history: Some(&ALONE),
        asked: None,
        is: true,
    },
    Row {
        moves: 2,
        tend: Some(1),
        history: Some(&MOVED),
        asked: None,
        is: false,
    },
    Row {
        moves: MOVES,
        tend: Some(1),
        history: None,
        asked: Some(1),
        is: true,
    },
    Row {
        moves: MOVES,
        tend: Some(1),
        history: None,
        asked: Some(2),
        is: false,
    },
    Row {
        moves: MOVES,
        tend: Some(1),
        history: None,
        asked: None,
        is: false,
    },
    Row {
        moves: MOVES,
        tend: None,
        history: Some(&ALONE),
        asked: None,
        is: true,
    },
    Row {
        moves: MOVES,
        tend: None,
        history: Some(&ALONE),
        asked: Some(1),
        is: false,
    },
];

fn shaped(alloc: Global, program: Program) -> Result<ValidProgram, SketchError> {
    validate_program(alloc, program).map_err(|_| SketchError::Word)
}

fn checked(alloc: Global) -> Result<Checked, SketchError> {
    let shaped = shaped(alloc, sketched_program(alloc, LINE)?)?;
    check(alloc, shaped).map_err(|_| SketchError::Word)
}

// A device that has done nothing.
fn opened(alloc: Global, program: &Checked, moves: u32) -> Result<Device, NoMemory>
    ensures idle { IfOk result (λ device. NoneBegun device) }
    ensures sound { IfOk result (λ device. IsSound device.program) }
{
    Device::new(alloc, program, 238, moves)
}

// The bytes of the first read-back.
fn first_read(device: &Device) -> Option<&[u8]> {
    if device.program().program().readbacks.is_empty() {
        return None;
    }
    device.readback(0)
}

fn is_over(device: &Device) -> bool {
    device.complete() && first_read(device) == Some(BYTES.as_slice())
}

fn has_history(device: &Device, history: Option<&[Event]>) -> bool {
    match history {
        Some(history) => device.history() == history,
        None => true,
    }
}

// Whether a device is driven to its end as the row says.
fn is_driven<R: Threads + Sync>(
    rt: &R,
    alloc: Global,
    program: &Checked,
    device: &mut Device,
    row: &Row,
) -> Result<bool, NoMemory>
    requires idle { NoneBegun device.old }
    requires sound { IsSound device.old.program }
{
    drive(rt, alloc, device, row.tend)?;
    let is = tended(alloc, program, device, row.asked)?;
    Ok(is == row.is && is_over(device) && has_history(device, row.history))
}

// So that one function lets the device go.
fn runs<R: Threads + Sync>(
    rt: &R,
    alloc: Global,
    program: &Checked,
    row: &Row,
) -> Result<bool, NoMemory> {
    let mut device = opened(alloc, program, row.moves)?;
    is_driven(rt, alloc, program, &mut device, row)
}

fn all_run<R: Threads + Sync>(rt: &R, alloc: Global, program: &Checked) -> Result<bool, NoMemory> {
    for row in &ROWS {
        if !runs(rt, alloc, program, row)? {
            return Ok(false);
        }
    }
    Ok(true)
}

#[test]
fn runs_of_a_seed(rt: HostRuntime) -> Result<(), Fail> {
    let alloc = rt.alloc();
    let program = checked(alloc)?;
    assert!(&rt; all_run(&rt, alloc, &program)?);
    Ok(())
}
