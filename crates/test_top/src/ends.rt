//! Reads and writes that fail, and what is offered to a sink.

ghost use Rattle.std.specs.Prelude.{◌<◌};

use crate::calls::{FILL, FILL_TEXT};
use base::{List, NoMemory};
use base_io::{
    IdleGate, MemorySink, MemorySource, Put, ReadResult, Sink, Source, SteadySink, SteadySource,
};
use std::alloc::Global;
use std::sync::Wait;
use std::test::Fail;
use std::thread::Threads;
use test_calls::{KeepNone, Status, status_of};

// How many bytes a read or write moves, and which one fails.
type Calls = (u32, u32);

// The one fill.
fn one_fill(alloc: Global, read: Calls) -> Result<MemorySource, NoMemory>
    requires { 0 < read.0 }
{
    let bytes = List::from_slice(alloc, FILL.as_bytes())?;
    Ok(MemorySource::new(bytes, read.0, List::from_slice(alloc, &[read.1])?))
}

// Whether the one fill ends with this status and text.
fn ends<R: Threads + Wait + Sync>(
    rt: &R,
    alloc: Global,
    source: &mut MemorySource,
    write: Calls,
    wanted: Status,
    text: &str,
) -> Result<bool, NoMemory>
    requires { 0 < write.0 }
{
    let failing = List::from_slice(alloc, &[write.1])?;
    let mut sink = MemorySink::new(alloc, 1000, write.0, failing)?;
    let status = status_of(
        rt,
        alloc,
        "run",
        source,
        &mut sink,
        &IdleGate,
        &mut KeepNone,
    )?;
    Ok(status == Some(wanted) && sink.bytes() == text.as_bytes())
}

fn row<R: Threads + Wait + Sync>(
    rt: &R,
    alloc: Global,
    read: Calls,
    write: Calls,
    wanted: Status,
    text: &str,
) -> Result<bool, NoMemory>
    requires read { 0 < read.0 }
    requires write { 0 < write.0 }
{
    let mut source = one_fill(alloc, read)?;
    ends(rt, alloc, &mut source, write, wanted, text)
}

// Which read fails of 100 bytes each, and which write of 10, the status and the text.
const ENDS: [(u32, u32, Status, &str); 4] = [
    (1, 9, Status::ReadFault, ""),
    (3, 9, Status::ReadFault, ""),
    (99, 2, Status::WriteFault, "kept 1 cul"),
    (99, 9, Status::Done, FILL_TEXT),
];

#[test]
fn failing_ends(rt: HostRuntime) -> Result<(), Fail> {
    let alloc = rt.alloc();
    for (read, write, status, text) in &ENDS {
        assert!(&rt;
            row(&rt, alloc, (100, *read), (10, *write), *status, text)?,
            "{read}"
        );
    }
    assert!(&rt; row(&rt, alloc, (1, 999), (10, 9), Status::Done, FILL_TEXT)?);
    Ok(())
}

// Three reads give the one fill and the fourth its end: the fifth, which would fail, is not made.
#[test]
fn end_asked_once(rt: HostRuntime) -> Result<(), Fail> {
    let alloc = rt.alloc();
    let mut source = one_fill(alloc, (100, 5))?;
    assert!(&rt; ends(&rt, alloc, &mut source, (10, 99), Status::Done, FILL_TEXT)?);
    assert!(&rt; source.read(&mut [0u8]) == ReadResult::Failed);
    Ok(())
}

// Whether the next read gives the byte of the one fill with this number.
fn goes_on(source: &mut MemorySource, at: usize) -> bool {
    let mut byte = [0u8];
    let taken = source.read(&mut byte);
    taken == ReadResult::Got(1) && FILL.as_bytes().get(at) == Some(&byte[0])
}

// Whether the call ends where the read with this number fails, from 0, and does not try it again.
fn ends_at<R: Threads + Wait + Sync>(rt: &R, alloc: Global, at: u32) -> Result<bool, NoMemory>
    requires { at < 1000 }
{
    let mut source = one_fill(alloc, (1, at + 1))?;
    let ended = ends(rt, alloc, &mut source, (10, 99), Status::ReadFault, "")?;
    Ok(ended && goes_on(&mut source, at as usize))
}

#[test]
fn each_read_fails(rt: HostRuntime) -> Result<(), Fail> {
    for at in 0..40 {
        assert!(&rt; ends_at(&rt, rt.alloc(), at)?, "byte {at}");
    }
    Ok(())
}

#[test]
fn each_write_fails(rt: HostRuntime) -> Result<(), Fail> {
    for at in 0..40u32 {
        let front = FILL_TEXT.get(..at as usize).unwrap_or("no front");
        assert!(&rt;
            row(
                &rt,
                rt.alloc(),
                (100, 99),
                (1, at + 1),
                Status::WriteFault,
                front
            )?,
            "byte {at}"
        );
    }
    Ok(())
}

// Takes four bytes of each write, and keeps how many were offered.
#[derive(Drop)]
struct Offers {
    lengths: Vec<usize>,
}

impl Sink for Offers {
    ghost use Rattle.std.specs.Prelude.{None};

    ghost taken = { λ _. None };

    ghost faults = { λ _. 0 };

    fn write(&mut self, bytes: &[u8]) -> Put {
        let _ = self.lengths.push(bytes.len());
        Put::Took(bytes.len().min(4))
    }
}

// Whether the one fill ends with this status on a sink.
fn ends_on<R: Threads + Wait + Sync, O: Sink>(
    rt: &R,
    alloc: Global,
    line: &str,
    sink: &mut O,
    wanted: Status,
) -> Result<bool, NoMemory> {
    let mut source = SteadySource::new(List::from_slice(alloc, FILL.as_bytes())?, 1);
    let status = status_of(rt, alloc, line, &mut source, sink, &IdleGate, &mut KeepNone)?;
    Ok(status == Some(wanted))
}

// Whether so many bytes of the text are offered to a sink that takes four of each write.
fn is_offered<R: Threads + Wait + Sync>(
    rt: &R,
    alloc: Global,
    line: &str,
    wanted: Status,
    lengths: &[usize],
) -> Result<bool, NoMemory> {
    let mut offers = Offers {
        lengths: Vec::new(alloc),
    };
    let ended = ends_on(rt, alloc, line, &mut offers, wanted)?;
    Ok(ended && offers.lengths.as_slice() == lengths)
}

// The text of the one fill has 61 bytes, in lines of 16, 12 and 33.
const LENGTHS: [usize; 16] = [61, 57, 53, 49, 45, 41, 37, 33, 29, 25, 21, 17, 13, 9, 5, 1];

#[test]
fn whole_rest_at_each_write(rt: HostRuntime) -> Result<(), Fail> {
    let alloc = rt.alloc();
    assert!(&rt; ends_on(&rt, alloc, "run", &mut SteadySink::new(), Status::Done)?);
    assert!(&rt; is_offered(&rt, alloc, "run run run", Status::Words, &[6, 2])?);
    assert!(&rt; is_offered(&rt, alloc, "run", Status::Done, &LENGTHS)?);
    Ok(())
}
