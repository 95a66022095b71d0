//! Input is read to its end, or to one byte over a limit.

ghost use Rattle.std.specs.Prelude.{◌≡◌, ◌<◌, ◌+◌, ◌^◌, length, vec_len, IfOk};
ghost use Rattle.top.specs.Internal.Intakes.{IsIntake, IsStep};
ghost use Rattle.top.specs.Outcomes.{TakesAtMost};

use base::NoMemory;
use base_io::{ReadResult, Source};
use std::alloc::Global;

// How many bytes are asked for at once.
const BUFFER: usize = 65536;

/// What was read.
#[derive(Drop)]
pub enum Intake {
    /// All bytes that were left.
    Whole(Vec<u8>),
    /// More bytes than the limit were there.
    Over,
    /// A read failed.
    Fault,
    /// There was no memory for them.
    NoMemory,
}

// How one read ended.
#[derive(Clone, Copy)]
enum ReadStep {
    More,
    End,
    Fault,
    NoMemory,
}

/// Reads to the end, or to one byte over the limit (in bytes), or to the first read that fails or finds no memory.
pub fn read_input<I: Source>(alloc: Global, input: &mut I, limit: usize) -> Intake
    requires { limit < 2 ^ 32 }
    ensures intake { IsIntake limit (I.left input.old) (I.left input.new) (I.faults input.old) (I.faults input.new) result }
    ensures taken { TakesAtMost (limit + 1) (I.left input.old) (I.left input.new) }
{
    let Ok(mut buffer) = buffer_of(alloc, BUFFER) else {
        return Intake::NoMemory;
    };
    let mut bytes = Vec::new(alloc);
    while bytes.len() <= limit {
        let want = BUFFER.min(limit + 1 - bytes.len());
        match read_some(input, &mut buffer[..want], &mut bytes) {
            ReadStep::More => {}
            ReadStep::End => return Intake::Whole(bytes),
            ReadStep::Fault => return Intake::Fault,
            ReadStep::NoMemory => return Intake::NoMemory,
        }
    }
    Intake::Over
}

fn read_some<I: Source>(input: &mut I, buffer: &mut [u8], bytes: &mut Vec<u8>) -> ReadStep
    requires { 0 < length buffer.old }
    ensures step { IsStep (length buffer.old) (I.left input.old) (I.left input.new) (I.faults input.old) (I.faults input.new) bytes.old.items bytes.new.items result }
    ensures taken { TakesAtMost (length buffer.old) (I.left input.old) (I.left input.new) }
{
    match input.read(buffer) {
        ReadResult::Got(count) => {
            if bytes.extend_from_slice(&buffer[..count]).is_err() {
                return ReadStep::NoMemory;
            }
            ReadStep::More
        }
        ReadResult::End => ReadStep::End,
        ReadResult::Failed => ReadStep::Fault,
    }
}

fn buffer_of(alloc: Global, count: usize) -> Result<Vec<u8>, NoMemory>
    ensures { IfOk result (λ bytes. vec_len bytes ≡ count) }
{
    Ok(vec![in alloc; 0u8; count]?)
}
