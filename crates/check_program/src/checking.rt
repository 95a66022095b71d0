//! Only sound programs are taken.

ghost use Rattle.std.specs.Prelude.{◌≡◌, ◌↔◌, None, true, IfOk, IfErr};
ghost use Rattle.check_program.specs.Sound.{IsSound};
ghost use Rattle.check_program.specs.Verdicts.{IsCheckError};
ghost use Rattle.program.specs.FirstFault.{first_fault};

use crate::judge::first_hazard;
use crate::{Checked, Hazard};
use base::NoMemory;
use program::{Program, ValidProgram};
use std::alloc::Global;
use std::sync::Arc;
use thiserror::Error;

/// Why a program was not taken.
#[derive(Debug, Drop, Error)]
pub enum CheckError {
    /// The first hazard, and the program itself.
    #[error("the submission is not sound")]
    Refused(Hazard, ValidProgram),
    #[error("memory ran out")]
    NoMemory,
}

/// Takes a sound program.
pub fn check(alloc: Global, program: ValidProgram) -> Result<Checked, CheckError>
    ensures checked { IfOk result (λ checked. checked.program ≡ program) }
    ensures sound { IfOk result (λ checked. IsSound program) }
    ensures refused { IfErr result (IsCheckError program) }
{
    match first_hazard(alloc, &program) {
        Ok(None) => match Arc::new(alloc, program) {
            Ok(shaped) => Ok(Checked::new(shaped)),
            Err(_) => Err(CheckError::NoMemory),
        },
        Ok(Some(hazard)) => Err(CheckError::Refused(hazard, program)),
        Err(NoMemory) => Err(CheckError::NoMemory),
    }
}

/// Takes a program that is known to break no rule and to be sound. Nothing is checked: its nodes are numbered.
pub fn proved_sound(alloc: Global, program: Program) -> Result<Checked, NoMemory>
    requires faultless { first_fault program ≡ None }
    requires sound { IsSound program }
    ensures { IfOk result (λ checked. checked.program ≡ program) }
{
    let shaped = ValidProgram::faultless(alloc, program)?;
    match Arc::new(alloc, shaped) {
        Ok(shaped) => Ok(Checked::new(shaped)),
        Err(_) => Err(NoMemory),
    }
}

/// Whether the program is sound.
pub fn sound(alloc: Global, program: &ValidProgram) -> Result<bool, NoMemory>
    ensures { IfOk result (λ sound. (sound ≡ true) ↔ IsSound program.now) }
{
    match first_hazard(alloc, program)? {
        None => Ok(true),
        Some(_) => Ok(false),
    }
}
