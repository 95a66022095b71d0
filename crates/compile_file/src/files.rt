//! What the bytes of a file are: a valid frame, a valid program, or the first fault.

ghost use Rattle.file_frame.specs.Files.{FrameGives};
ghost use Rattle.compile_file.specs.Files.{frame_file, program_file};
ghost use Rattle.file_program.specs.Files.{ProgramGives};

use file_frame::{FrameReadError, read_frame};
use file_program::{ProgramReadError, read_program};
use frame::{FrameError, ValidFrame, validate_frame};
use program::{ProgramError, ValidProgram, validate_program};
use std::alloc::Global;

/// The valid frame that bytes are, or their first fault.
pub fn valid_frame(alloc: Global, bytes: &[u8]) -> Result<ValidFrame, FrameReadError>
    ensures { FrameGives result (frame_file bytes.now) }
{
    match validate_frame(alloc, read_frame(alloc, bytes)?) {
        Ok(good) => Ok(good),
        Err(FrameError::Refused(fault, _)) => Err(FrameReadError::Refused(fault)),
        Err(FrameError::NoMemory(_)) => Err(FrameReadError::NoMemory),
    }
}

/// The valid program that bytes are, or their first fault.
pub fn valid_program(alloc: Global, bytes: &[u8]) -> Result<ValidProgram, ProgramReadError>
    ensures { ProgramGives result (program_file bytes.now) }
{
    match validate_program(alloc, read_program(alloc, bytes)?) {
        Ok(shaped) => Ok(shaped),
        Err(ProgramError::Refused(fault, _)) => Err(ProgramReadError::Refused(fault)),
        Err(ProgramError::NoMemory(_)) => Err(ProgramReadError::NoMemory),
    }
}
