//! What is left out of one wait.

ghost use Rattle.std.specs.Prelude.{◌≡◌, ℕ, ◌<◌, ◌≤◌, ◌+◌, true, false, IfOk, Some, slice_get};
ghost use Rattle.check_tighten.specs.Internal.Rounds.{Came, FitTried, StageNumberTried, StageTried, StandsAt, WaitDone, WaitTried, Walked};
ghost use Rattle.check_tighten.specs.Own.{single_stages};
ghost use Rattle.check_tighten.specs.Tightened.{InTurn, LessStage, LessWait, OwnAlone, StagesTurn, StageTurn, Succeeds, Tries, WaitTurn};

use crate::own::{SINGLE_STAGES, fitted, single_stage, without_stage};
use crate::place::{Place, Standing, wait_at};
use crate::trial::{Trial, replaced, without};
use base::NoMemory;
use program::Program;
use std::alloc::Global;
use vk::Stages;

// Without a wait, if there is one and the program passes without it.
fn leave_wait(alloc: Global, program: Program, place: Place) -> Result<Trial, NoMemory>
    ensures came { IfOk result (λ trial. Came program trial.program trial.changed) }
    ensures tried { IfOk result (λ trial. trial.changed ≡ false → WaitTried program place.queue place.batch place.at) }
    ensures left { IfOk result (λ trial. trial.changed ≡ true → Succeeds (LessWait place.queue place.batch place.at) program trial.program) }
{
    match wait_at(&program, place) {
        Some(_) => without(alloc, program, place),
        None => Ok(Trial::unchanged(program)),
    }
}

// With a wait that stands at the place.
fn leave_stage_of(
    alloc: Global,
    program: Program,
    place: Place,
    found: Standing,
    stage: Stages,
) -> Result<Trial, NoMemory>
    requires found { StandsAt program place.queue place.batch place.at found.family found.wait }
    requires single { (i : ℕ) × (slice_get single_stages i ≡ Some stage.0) }
    ensures came { IfOk result (λ trial. Came program trial.program trial.changed) }
    ensures tried { IfOk result (λ trial. trial.changed ≡ false → StageTried program place.queue place.batch place.at stage.0) }
    ensures turn { IfOk result (λ trial. Tries (LessStage place.queue place.batch place.at stage.0) program trial.program) }
{
    if found.has_own(stage) {
        let wait = without_stage(found.family, stage, found.wait);
        replaced(alloc, program, place, wait)
    } else {
        Ok(Trial::unchanged(program))
    }
}

// With a wait that has its own stages but one, if that is one of them and the program passes so.
fn leave_stage(
    alloc: Global,
    program: Program,
    place: Place,
    stage: Stages,
) -> Result<Trial, NoMemory>
    requires { (i : ℕ) × (slice_get single_stages i ≡ Some stage.0) }
    ensures came { IfOk result (λ trial. Came program trial.program trial.changed) }
    ensures tried { IfOk result (λ trial. trial.changed ≡ false → StageTried program place.queue place.batch place.at stage.0) }
    ensures turn { IfOk result (λ trial. Tries (LessStage place.queue place.batch place.at stage.0) program trial.program) }
{
    match wait_at(&program, place) {
        Some(found) => leave_stage_of(alloc, program, place, found, stage),
        None => Ok(Trial::unchanged(program)),
    }
}

// With a wait that stands at the place.
fn fit_of(alloc: Global, program: Program, place: Place, found: Standing) -> Result<Trial, NoMemory>
    requires { StandsAt program place.queue place.batch place.at found.family found.wait }
    ensures came { IfOk result (λ trial. Came program trial.program trial.changed) }
    ensures tried { IfOk result (λ trial. trial.changed ≡ false → FitTried program place.queue place.batch place.at) }
    ensures turn { IfOk result (λ trial. Tries (OwnAlone place.queue place.batch place.at) program trial.program) }
{
    if found.is_fitted() {
        Ok(Trial::unchanged(program))
    } else {
        let wait = fitted(found.family, found.wait);
        replaced(alloc, program, place, wait)
    }
}

// With a wait that has its own stages alone, if it has others and the program passes so.
fn fit(alloc: Global, program: Program, place: Place) -> Result<Trial, NoMemory>
    ensures came { IfOk result (λ trial. Came program trial.program trial.changed) }
    ensures tried { IfOk result (λ trial. trial.changed ≡ false → FitTried program place.queue place.batch place.at) }
    ensures turn { IfOk result (λ trial. Tries (OwnAlone place.queue place.batch place.at) program trial.program) }
{
    match wait_at(&program, place) {
        Some(found) => fit_of(alloc, program, place, found),
        None => Ok(Trial::unchanged(program)),
    }
}

// Stage by stage, in the order of their bits.
fn leave_stages(alloc: Global, program: Program, place: Place) -> Result<Trial, NoMemory>
    ensures walked { IfOk result (λ trial. Walked (StageNumberTried place.queue place.batch place.at) program trial.program trial.changed 5) }
    ensures turns { IfOk result (λ trial. InTurn (StageTurn place.queue place.batch place.at) 5 program trial.program) }
{
    let mut now = Trial::unchanged(program);
    for i in 0..SINGLE_STAGES {
        let Trial { program, changed } = now;
        let next = leave_stage(alloc, program, place, single_stage(i))?;
        now = next.after(changed);
    }
    Ok(now)
}

fn fewer_stages(alloc: Global, program: Program, place: Place) -> Result<Trial, NoMemory>
    ensures came { IfOk result (λ trial. Came program trial.program trial.changed) }
    ensures stages { IfOk result (λ trial. trial.changed ≡ false → (i : ℕ) → i < 5 → StageNumberTried place.queue place.batch place.at program i) }
    ensures fit { IfOk result (λ trial. trial.changed ≡ false → FitTried program place.queue place.batch place.at) }
    ensures turn { IfOk result (λ trial. StagesTurn place.queue place.batch place.at program trial.program) }
{
    let left = leave_stages(alloc, program, place)?;
    let next = fit(alloc, left.program, place)?;
    Ok(next.after(left.changed))
}

/// What a program came to, and the number of the wait that comes next.
#[derive(Drop)]
pub struct Attempt {
    pub trial: Trial,
    pub next: usize,
}

/// Leaves out a wait, or else what stages of it can be left out.
pub fn attempt_wait(alloc: Global, program: Program, place: Place) -> Result<Attempt, NoMemory>
    requires { place.at < usize.MAX }
    ensures came { IfOk result (λ attempt. Came program attempt.trial.program attempt.trial.changed) }
    ensures done { IfOk result (λ attempt. attempt.trial.changed ≡ false → WaitDone place.queue place.batch program place.at) }
    ensures next { IfOk result (λ attempt. attempt.next ≤ place.at + 1) }
    ensures last { IfOk result (λ attempt. attempt.trial.changed ≡ false → attempt.next ≡ place.at + 1) }
    ensures turn { IfOk result (λ attempt. WaitTurn place.queue place.batch place.at program attempt.trial.program attempt.next) }
{
    let left = leave_wait(alloc, program, place)?;
    if left.changed {
        return Ok(Attempt {
            trial: left,
            next: place.at,
        });
    }
    let trial = fewer_stages(alloc, left.program, place)?;
    Ok(Attempt {
        trial,
        next: place.at + 1,
    })
}
