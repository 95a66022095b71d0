//! What a command line gives for a file.

use crate::call::status_of;
use base::{List, NoMemory};
use base_io::{Gate, IdleGate, MemorySink, Source, SteadySource};
use std::alloc::Global;
use std::sync::Wait;
use std::thread::Threads;
use top::{Keep, KeepNone, Status};

// A file is read seven bytes at a time, and a text written thirteen at a time.
const READ: u32 = 7;

const WRITTEN: u32 = 13;

const ROOM: u32 = 600_000;

/// The status, none if a tap was finished where there is none, and the sink with the text.
#[derive(Drop)]
pub struct Answer {
    pub status: Option<Status>,
    pub sink: MemorySink,
}

impl Answer {
    pub fn text(&self) -> &[u8] {
        self.sink.bytes()
    }

    pub fn is(&self, status: Status, text: &str) -> bool {
        self.status == Some(status) && self.text() == text.as_bytes()
    }
}

fn answered<R: Threads + Wait + Sync, I: Source, G: Gate + Sync, K: Keep>(
    rt: &R,
    alloc: Global,
    line: &str,
    source: &mut I,
    gate: &G,
    keeper: &mut K,
) -> Result<Answer, NoMemory> {
    let mut sink = MemorySink::new(alloc, ROOM, WRITTEN, List::new(alloc))?;
    let status = status_of(rt, alloc, line, source, &mut sink, gate, keeper)?;
    Ok(Answer { status, sink })
}

/// What a command line gives for what a source has, with this gate round its commands.
pub fn answer_from<R: Threads + Wait + Sync, I: Source, G: Gate + Sync>(
    rt: &R,
    alloc: Global,
    line: &str,
    source: &mut I,
    gate: &G,
) -> Result<Answer, NoMemory> {
    answered(rt, alloc, line, source, gate, &mut KeepNone)
}

/// What a command line gives for a file, whose devices this keeper is handed.
pub fn answer_kept<R: Threads + Wait + Sync, K: Keep>(
    rt: &R,
    alloc: Global,
    line: &str,
    file: &[u8],
    keeper: &mut K,
) -> Result<Answer, NoMemory> {
    let mut source = SteadySource::new(List::from_slice(alloc, file)?, READ);
    answered(rt, alloc, line, &mut source, &IdleGate, keeper)
}

/// What a command line gives for a file, with this gate round its commands.
pub fn answer_of<R: Threads + Wait + Sync, G: Gate + Sync>(
    rt: &R,
    alloc: Global,
    line: &str,
    file: &[u8],
    gate: &G,
) -> Result<Answer, NoMemory> {
    let mut source = SteadySource::new(List::from_slice(alloc, file)?, READ);
    answer_from(rt, alloc, line, &mut source, gate)
}

/// Whether a command line gives this status and this text for a file.
pub fn is_given<R: Threads + Wait + Sync>(
    rt: &R,
    alloc: Global,
    line: &str,
    file: &str,
    status: Status,
    text: &str,
) -> Result<bool, NoMemory> {
    let answer = answer_of(rt, alloc, line, file.as_bytes(), &IdleGate)?;
    Ok(answer.is(status, text))
}
