//! What reading says of a file, as the tests compare it.

use base::{Leg, Path};
use file_program::{ProgramReadError, read_program};
use program::{Program, ProgramError, ProgramFault, validate_program};
use std::alloc::{AllocError, Global};
use std::process::Abort;
use std::test::Fail;

/// A piece of a file, another in its place, and the answer.
pub type Row = (&'static str, &'static str, &'static str);

/// `program`, or the number and place of the fault.
pub fn judge_bytes(alloc: Global, bytes: &[u8]) -> Result<String, AllocError> {
    match read_program(alloc, bytes) {
        Ok(_) => String::from_str(alloc, "program"),
        Err(ProgramReadError::NoMemory) => String::from_str(alloc, "no memory"),
        Err(ProgramReadError::Refused(fault)) => told(alloc, &fault),
    }
}

/// What the file is with another piece in the place of one of its pieces.
pub fn judge(alloc: Global, file: &str, piece: &str, other: &str) -> Result<String, AllocError> {
    judge_bytes(alloc, file.replace(alloc, piece, other)?.as_bytes())
}

/// The rules on programs, too: `shaped`, or the number and place of the fault.
pub fn judge_shape(alloc: Global, bytes: &[u8]) -> Result<String, AllocError> {
    match read_program(alloc, bytes) {
        Ok(program) => judge_program(alloc, program),
        Err(ProgramReadError::NoMemory) => String::from_str(alloc, "no memory"),
        Err(ProgramReadError::Refused(fault)) => told(alloc, &fault),
    }
}

fn judge_program(alloc: Global, program: Program) -> Result<String, AllocError> {
    match validate_program(alloc, program) {
        Ok(_) => String::from_str(alloc, "shaped"),
        Err(ProgramError::NoMemory(_)) => String::from_str(alloc, "no memory"),
        Err(ProgramError::Refused(fault, _)) => told(alloc, &fault),
    }
}

fn told(alloc: Global, fault: &ProgramFault) -> Result<String, AllocError> {
    let path = written(alloc, &fault.location)?;
    format!(in alloc; "G{} {}", fault.number, path.as_str())
}

// Each byte of a member that is not printable ASCII stands as `?`.
fn written(alloc: Global, path: &Path) -> Result<String, AllocError> {
    let mut text = String::from_str(alloc, "$")?;
    for leg in path.as_slice() {
        match leg {
            Leg::Member(name) => {
                text.push('.')?;
                for byte in name.as_slice() {
                    text.push(if (32..127).contains(byte) {
                        *byte as char
                    } else {
                        '?'
                    })?;
                }
            }
            Leg::Position(at) => text.push_str(format!(in alloc; "[{at}]")?.as_str())?,
        }
    }
    Ok(text)
}

/// Each row over a file.
pub fn all(rt: &impl Abort, alloc: Global, file: &str, rows: &[Row]) -> Result<(), Fail> {
    for (piece, other, answer) in rows {
        let found = judge(alloc, file, piece, other)?;
        assert!(rt; found.as_str() == *answer, "{piece} to {other}: {found}");
    }
    Ok(())
}
