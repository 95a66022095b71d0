//! A submission file from its bytes.

ghost use Rattle.std.specs.Prelude.{[], IfOk};
ghost use Rattle.file_program.specs.Files.{program_of, shaped, ProgramGives};
ghost use Rattle.file_program.specs.Programs.{program_at, FitsProgram};
ghost use Rattle.serde_json.specs.View.{view};

use crate::whole_program::ProgramForm;
use file_json::{JsonError, Location, ReadError, Reader, read_json};
use program::{Program, ProgramFault};
use serde_json::Value;
use std::alloc::Global;
use thiserror::Error;

/// Why bytes gave no program.
#[derive(Debug, Drop, Error)]
pub enum ProgramReadError {
    #[error("the bytes are no submission")]
    Refused(ProgramFault),
    #[error("memory ran out")]
    NoMemory,
}

fn program_in(alloc: Global, json: &Value) -> Result<Program, ProgramReadError>
    ensures gives { ProgramGives result (shaped (program_at [] (view json.now))) }
    ensures fits { IfOk result FitsProgram }
{
    match ProgramForm::read(alloc, &Location::Top, json) {
        Ok(program) => Ok(program),
        Err(ReadError::NoMemory) => Err(ProgramReadError::NoMemory),
        Err(ReadError::Refused(path)) => Err(ProgramReadError::Refused(ProgramFault::misshapen(
            path,
        ))),
    }
}

/// The program that the bytes are, or the first fault of their form: G10 where they are no JSON value, else G11 with its
/// path. They may be of any length.
pub fn read_program(alloc: Global, bytes: &[u8]) -> Result<Program, ProgramReadError>
    ensures gives { ProgramGives result (program_of bytes.now) }
    ensures fits { IfOk result FitsProgram }
{
    match read_json(alloc, bytes) {
        Ok(json) => program_in(alloc, &json),
        Err(JsonError::NoMemory) => Err(ProgramReadError::NoMemory),
        Err(JsonError::NotJson) => Err(ProgramReadError::Refused(ProgramFault::not_json(alloc))),
    }
}
