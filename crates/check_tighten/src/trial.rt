//! A change of a program is kept only where the program stays sound.

ghost use Rattle.std.specs.Prelude.{◌≡◌, ◌↔◌, ◌||◌, true, false, IfOk, slice_set, None};
ghost use Rattle.program.specs.FirstFault.{first_fault};
ghost use Rattle.check_tighten.specs.Internal.Rounds.{HasWait, Tried};
ghost use Rattle.check_tighten.specs.Edits.{program_with, without_at};
ghost use Rattle.check_tighten.specs.Tight.{Passes};
ghost use Rattle.program.specs.Obeys.{BatchAt};
ghost use Rattle.program.specs.declared.program.Batch.{Batch};
ghost use Rattle.program.specs.declared.program.Queue.{Queue};

use crate::edit::{program_with, without_wait};
use crate::place::{Place, waits_at};
use base::{List, NoMemory};
use check_program::sound;
use program::{Program, ProgramError, ValidProgram, WaitFor, validate_program};
use std::alloc::Global;

// A program, and whether it passes: it breaks no rule, and is sound.
#[derive(Drop)]
struct Judged {
    program: Program,
    passes: bool,
}

/// What a program came to, and whether it was changed.
#[derive(Drop)]
pub struct Trial {
    pub program: Program,
    pub changed: bool,
}

impl Trial {
    pub fn unchanged(program: Program) -> Trial
        ensures program { result.program ≡ program }
        ensures changed { result.changed ≡ false }
    {
        Trial {
            program,
            changed: false,
        }
    }

    /// After something that changed the program already, or did not.
    pub fn after(self, changed: bool) -> Trial
        ensures program { result.program ≡ self.program }
        ensures changed { result.changed ≡ (changed || self.changed) }
    {
        Trial {
            program: self.program,
            changed: changed || self.changed,
        }
    }
}

fn judge_shaped(alloc: Global, shaped: ValidProgram) -> Result<Judged, NoMemory>
    requires { first_fault shaped ≡ None }
    ensures { IfOk result (λ judged. (judged.program ≡ shaped) × ((judged.passes ≡ true) ↔ Passes shaped)) }
{
    let passes = sound(alloc, &shaped)?;
    Ok(Judged {
        program: shaped.into_program(),
        passes,
    })
}

// The program, and whether it passes.
fn judge(alloc: Global, program: Program) -> Result<Judged, NoMemory>
    ensures { IfOk result (λ judged. (judged.program ≡ program) × ((judged.passes ≡ true) ↔ Passes program)) }
{
    match validate_program(alloc, program) {
        Ok(shaped) => judge_shaped(alloc, shaped),
        Err(ProgramError::Refused(_, program)) => Ok(Judged {
            program,
            passes: false,
        }),
        Err(ProgramError::NoMemory(_)) => Err(NoMemory),
    }
}

// The program that was judged, if it passes, else with the old waits again.
fn kept_or_undone(alloc: Global, judged: Judged, place: Place, old: List<WaitFor>) -> Trial
    ensures kept { judged.passes ≡ true → (result.changed ≡ true) × (result.program ≡ judged.program) }
    ensures undone { judged.passes ≡ false → (result.changed ≡ false) × (result.program ≡ program_with place.queue place.batch old judged.program) }
{
    let Judged { program, passes } = judged;
    if passes {
        Trial {
            program,
            changed: true,
        }
    } else {
        Trial {
            program: program_with(alloc, program, place.queue, place.batch, old),
            changed: false,
        }
    }
}

// With other waits at the batch of a place, if the program passes with them; else as it was.
fn tried(
    alloc: Global,
    program: Program,
    place: Place,
    waits: List<WaitFor>,
) -> Result<Trial, NoMemory>
    requires { HasWait program place.queue place.batch place.at }
    ensures { IfOk result (λ trial. Tried program (program_with place.queue place.batch waits program) trial.program trial.changed) }
{
    let old = waits_at(alloc, &program, place.queue, place.batch)?;
    let candidate = program_with(alloc, program, place.queue, place.batch, waits);
    let judged = judge(alloc, candidate)?;
    Ok(kept_or_undone(alloc, judged, place, old))
}

/// The program without a wait, if it passes without it; else as it was.
pub fn without(alloc: Global, program: Program, place: Place) -> Result<Trial, NoMemory>
    requires { HasWait program place.queue place.batch place.at }
    ensures { IfOk result (λ trial. (queue : Queue) (batch : Batch) → BatchAt program place.queue place.batch queue batch → Tried program (program_with place.queue place.batch (without_at place.at batch.waits) program) trial.program trial.changed) }
{
    let waits = waits_at(alloc, &program, place.queue, place.batch)?;
    let left = without_wait(alloc, waits.as_slice(), place.at)?;
    tried(alloc, program, place, left)
}

/// The program with another wait at a place, if it passes with it; else as it was.
pub fn replaced(
    alloc: Global,
    program: Program,
    place: Place,
    wait: WaitFor,
) -> Result<Trial, NoMemory>
    requires { HasWait program place.queue place.batch place.at }
    ensures { IfOk result (λ trial. (queue : Queue) (batch : Batch) → BatchAt program place.queue place.batch queue batch → Tried program (program_with place.queue place.batch (slice_set batch.waits place.at wait) program) trial.program trial.changed) }
{
    let mut waits = waits_at(alloc, &program, place.queue, place.batch)?;
    waits.set(place.at, wait);
    tried(alloc, program, place, waits)
}
