ghost use Rattle.std.specs.Prelude.{◌≡◌, nat_le, slice_get, true, false, IfSome};
ghost use Rattle.std.specs.Option.{option_map_or};
ghost use Rattle.device_model.specs.Devices.{view_in, is_ready};
ghost use Rattle.device_model.specs.Ready.{is_command, kind_at};
ghost use Rattle.device_model.specs.Steps.{may_move};
ghost use Rattle.program.specs.Limits.{memory_bytes};

use base::{CacheMove, List, MemoryRange, MoveKind, NoMemory};
use check_order::Kind;
use device::{Device, Finished, Landed};
use program::{Memory, Program, ValidProgram, validate_program};
use std::alloc::Global;
use std::sync::Arc;
use std::test::Fail;
use std::thread::Threads;
use test_sketch::{SketchError, sketched_program};

// The first kernel reads what the copy stores, and nothing orders them.
const UNORDERED: &str =
    "plain:256 plain:256 import:4 plain:256 buffer:4:0:0 buffer:4:0:0 buffer:4:1:0 buffer:4:2:0 image:1:1:r32:3:0 read:2 ; graphics copy:3:0:4 map:0:2 signal:1";

// A barrier orders them and makes nothing available.
const UNAVAILABLE: &str =
    "plain:256 plain:256 import:4 plain:256 buffer:4:0:0 buffer:4:0:0 buffer:4:1:0 buffer:4:2:0 image:1:1:r32:3:0 read:2 ; graphics copy:3:0:4 all:COPY,>COMPUTE_SHADER,SHADER_STORAGE_READ map:0:2 signal:1";

// What is done to a device.
#[derive(Clone, Copy)]
enum Act {
    // A node of a queue.
    Node(u32),
    // The first bytes that copies have stored go to main.
    WriteBack,
    // The first read-back.
    Read,
    // What another device has computed is handed in, before all others. It is not taken.
    Foreign,
}

// Of the first bytes that copies have stored.
const WRITE_BACK: CacheMove = CacheMove {
    kind: MoveKind::WriteBack,
    agent: 6,
    range: MemoryRange {
        memory: 0,
        start: 0,
        len: 4,
    },
};

const ROWS: [(&str, &[Act], [u8; 4]); 4] = [
    (
        UNORDERED,
        &[
            Act::Foreign,
            Act::Node(1),
            Act::Node(0),
            Act::Node(2),
            Act::Read,
        ],
        [0xef, 0xee, 0xee, 0xee],
    ),
    (
        UNORDERED,
        &[
            Act::Node(0),
            Act::WriteBack,
            Act::Node(1),
            Act::Node(2),
            Act::Read,
        ],
        [2, 0, 0, 0],
    ),
    (
        UNAVAILABLE,
        &[
            Act::Node(0),
            Act::Node(1),
            Act::Node(2),
            Act::Node(3),
            Act::Read,
        ],
        [0xef, 0xee, 0xee, 0xee],
    ),
    (
        UNAVAILABLE,
        &[
            Act::Node(0),
            Act::WriteBack,
            Act::Node(1),
            Act::Node(2),
            Act::Node(3),
            Act::Read,
        ],
        [2, 0, 0, 0],
    ),
];

// The program of a line, with bytes of its own in the third memory.
fn program(alloc: Global, line: &str) -> Result<Program, SketchError> {
    let mut program = sketched_program(alloc, line)?;
    if program.memories.len() > 2 {
        let bytes = List::from_slice(alloc, &[1, 0, 0, 0])?;
        program.memories.set(2, Memory::Import { bytes });
    }
    Ok(program)
}

fn shaped(alloc: Global, program: Program) -> Result<Arc<ValidProgram, Global>, SketchError> {
    match validate_program(alloc, program) {
        Ok(shaped) => Ok(Arc::new(alloc, shaped).map_err(|_| NoMemory)?),
        Err(_) => Err(SketchError::Word),
    }
}

// A command that is begun and computed.
fn computed<R: Threads + Sync>(
    rt: &R,
    alloc: Global,
    device: &mut Device,
    node: u32,
) -> Result<Finished, NoMemory>
    requires command { is_command (kind_at (view_in device.old) node) ≡ true }
    requires ready { is_ready device.old node ≡ true }
{
    Ok(device.begin(alloc, node)?.compute(rt))
}

fn run_command<R: Threads + Sync>(
    rt: &R,
    alloc: Global,
    device: &mut Device,
    node: u32,
) -> Result<(), NoMemory>
    requires command { is_command (kind_at (view_in device.old) node) ≡ true }
    requires ready { is_ready device.old node ≡ true }
{
    let done = computed(rt, alloc, device, node)?;
    let _landed = device.end(done);
    Ok(())
}

// What the node is, if it is there and ready.
fn ready_kind(device: &Device, node: u32) -> Option<Kind>
    ensures { IfSome result (λ kind. (is_ready device.now node ≡ true) × (kind ≡ kind_at (view_in device.now) node)) }
{
    if node < device.node_count() && device.ready(node) {
        Some(device.kind(node))
    } else {
        None
    }
}

fn run<R: Threads + Sync>(
    rt: &R,
    alloc: Global,
    device: &mut Device,
    node: u32,
) -> Result<(), NoMemory> {
    match ready_kind(device, node) {
        Some(Kind::Command) => run_command(rt, alloc, device, node)?,
        Some(Kind::Barrier | Kind::Wait { .. } | Kind::Signal { .. }) => device.sync(node),
        _ => {}
    }
    Ok(())
}

fn size_of(memory: &Memory) -> u64
    ensures { result ≡ memory_bytes memory.now }
{
    match memory {
        Memory::Plain { size } => u64::from(*size),
        Memory::Import { bytes } => bytes.len() as u64,
    }
}

// Whether the memory is there, and ends at or behind a place.
fn ends_within(memories: &[Memory], memory: u32, end: u64) -> bool
    ensures { result ≡ option_map_or (λ memory. nat_le end (memory_bytes memory)) (slice_get memories.now memory) false }
{
    match memories.get(memory as usize) {
        None => false,
        Some(memory) => end <= size_of(memory),
    }
}

fn may_move(program: &ValidProgram, cache_move: CacheMove) -> bool
    ensures { result ≡ may_move program.now cache_move }
{
    let program = program.program();
    let queues = program.queues.len() as u32;
    let range = cache_move.range;
    let end = u64::from(range.start) + u64::from(range.len);
    cache_move.agent < 8 * queues && ends_within(&program.memories, range.memory, end)
}

fn write_back(device: &mut Device) {
    if device.moves_left() > 0 && may_move(device.program(), WRITE_BACK) {
        device.move_lines(WRITE_BACK);
    }
}

fn read(device: &mut Device) {
    if device.program().program().readbacks.is_empty() {
        return;
    }
    if device.ready(device.read_node(0)) {
        device.host(0);
    }
}

fn device(alloc: Global, line: &str) -> Result<Device, Fail> {
    let shaped = shaped(alloc, program(alloc, line)?)?;
    Ok(Device::unchecked(alloc, shaped, 238, 1)?)
}

// A device goes to another thread.
fn sent<T: Send>(it: T) -> T {
    it
}

// What the first node has done, where it is a ready command.
fn finished<R: Threads + Sync>(
    rt: &R,
    alloc: Global,
    device: &mut Device,
) -> Result<Finished, SketchError> {
    if device.node_count() == 0 || device.kind(0) != Kind::Command || !device.ready(0) {
        return Err(SketchError::Word);
    }
    Ok(computed(rt, alloc, device, 0)?)
}

// What the first node of a device of its own has done.
fn foreign<R: Threads + Sync>(rt: &R, alloc: Global) -> Result<Finished, Fail> {
    let mut device = sent(device(alloc, UNORDERED)?);
    Ok(finished(rt, alloc, &mut device)?)
}

// Whether a device does not take what another one has computed, and nothing happens.
fn is_not_taken<R: Threads + Sync>(
    rt: &R,
    alloc: Global,
    device: &mut Device,
) -> Result<bool, Fail> {
    let done = foreign(rt, alloc)?;
    let landed = device.end(done);
    Ok(landed == Landed::NotBegun && device.history().is_empty())
}

// Whether it went as it should.
fn make_act<R: Threads + Sync>(
    rt: &R,
    alloc: Global,
    device: &mut Device,
    act: Act,
) -> Result<bool, Fail> {
    match act {
        Act::Node(node) => run(rt, alloc, device, node)?,
        Act::WriteBack => write_back(device),
        Act::Read => read(device),
        Act::Foreign => return is_not_taken(rt, alloc, device),
    }
    Ok(true)
}

// The bytes of the first read-back.
fn first_read(device: &Device) -> Option<&[u8]> {
    if device.program().program().readbacks.is_empty() {
        return None;
    }
    device.readback(0)
}

fn has_read(device: &Device, bytes: &[u8]) -> bool {
    match first_read(device) {
        Some(read) => read == bytes,
        None => false,
    }
}

// Whether the acts bring a device to its end, with these bytes read back by the last of them.
fn ends_with<R: Threads + Sync>(
    rt: &R,
    alloc: Global,
    device: &mut Device,
    acts: &[Act],
    bytes: &[u8],
) -> Result<bool, Fail> {
    for act in acts {
        if has_read(device, bytes) || !make_act(rt, alloc, device, *act)? {
            return Ok(false);
        }
    }
    Ok(device.complete() && has_read(device, bytes))
}

fn row<R: Threads + Sync>(
    rt: &R,
    alloc: Global,
    line: &str,
    acts: &[Act],
    bytes: &[u8],
) -> Result<bool, Fail> {
    let mut device = device(alloc, line)?;
    ends_with(rt, alloc, &mut device, acts, bytes)
}

#[test]
fn rows(rt: HostRuntime) -> Result<(), Fail> {
    let alloc = rt.alloc();
    for (line, acts, bytes) in &ROWS {
        assert!(&rt; row(&rt, alloc, line, acts, bytes)?);
    }
    Ok(())
}
