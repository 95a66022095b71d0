//! The input of a command.

ghost use Rattle.std.specs.Prelude.{◌≡◌, ◌⊎◌, IfOk, IfErr, None};
ghost use Rattle.top.specs.Internal.Intakes.{IsGiven};
ghost use Rattle.top.specs.Internal.Steps.{ReadsAnswer};
ghost use Rattle.top.specs.Takes.{TakesAll, TakesFew};

use crate::Status;
use crate::intake::{Intake, read_input};
use answer::{File, limit_of};
use base_io::Source;
use std::alloc::Global;

/// What a command has of its input.
#[derive(Drop)]
pub enum Input {
    /// All its bytes; none where nothing is read.
    Bytes(Vec<u8>),
    /// There were more bytes than this file may have.
    Over(File),
}

/// Reads a file to its end, or to one byte over its limit. Without a file nothing is read.
pub fn input_of<I: Source>(
    alloc: Global,
    file: Option<File>,
    input: &mut I,
) -> Result<Input, Status>
    ensures given { IfOk result (IsGiven file (I.left input.old)) }
    ensures none { IfErr result (λ status. (status ≡ Status.ReadFault) ⊎ (status ≡ Status.NoMemory)) }
    ensures read { ReadsAnswer (I.faults input.old) (I.faults input.new) result }
    ensures taken { TakesFew file (I.left input.old) (I.left input.new) }
    ensures whole { IfOk result (λ _. TakesAll file (I.left input.old) (I.left input.new)) }
    ensures unread { file ≡ None → input.new ≡ input.old }
{
    match file {
        Some(file) => match read_input(alloc, input, limit_of(file)) {
            Intake::Whole(bytes) => Ok(Input::Bytes(bytes)),
            Intake::Over => Ok(Input::Over(file)),
            Intake::Fault => Err(Status::ReadFault),
            Intake::NoMemory => Err(Status::NoMemory),
        },
        None => Ok(Input::Bytes(Vec::new(alloc))),
    }
}
