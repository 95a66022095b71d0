//! Rounds over all waits of a program.

ghost use Rattle.std.specs.Prelude.{◌≡◌, ℕ, false, IfOk};
ghost use Rattle.check_tighten.specs.Internal.Rounds.{BatchDone, Came, QueueDone};
ghost use Rattle.check_tighten.specs.Tight.{Passes, Tight};
ghost use Rattle.check_tighten.specs.Standing.{StandsTo};
ghost use Rattle.check_tighten.specs.Tightened.{BatchTurn, IsTightened, QueueTurn, Round};
ghost use Rattle.program.specs.declared.program.Program as programs;

use crate::leaving::attempt_wait;
use crate::place::{Place, batch_count, wait_count};
use crate::trial::Trial;
use base::NoMemory;
use program::Program;
use std::alloc::Global;

// The waits of a batch, in their order. Where one is left out, the next one stands at its number.
fn batch_round(
    alloc: Global,
    program: Program,
    queue: usize,
    batch: usize,
) -> Result<Trial, NoMemory>
    ensures came { IfOk result (λ trial. Came program trial.program trial.changed) }
    ensures done { IfOk result (λ trial. trial.changed ≡ false → BatchDone queue program batch) }
    ensures turn { IfOk result (λ trial. BatchTurn queue batch program trial.program) }
{
    let count = wait_count(&program, queue, batch);
    let mut now = Trial::unchanged(program);
    let mut at = 0;
    for step in 0..count {
        let Trial { program, changed } = now;
        let place = Place { queue, batch, at };
        let attempt = attempt_wait(alloc, program, place)?;
        at = attempt.next;
        now = attempt.trial.after(changed);
    }
    Ok(now)
}

fn queue_round(alloc: Global, program: Program, queue: usize) -> Result<Trial, NoMemory>
    ensures came { IfOk result (λ trial. Came program trial.program trial.changed) }
    ensures done { IfOk result (λ trial. trial.changed ≡ false → QueueDone program queue) }
    ensures turn { IfOk result (λ trial. QueueTurn queue program trial.program) }
{
    let count = batch_count(&program, queue);
    let mut now = Trial::unchanged(program);
    for batch in 0..count {
        let Trial { program, changed } = now;
        let next = batch_round(alloc, program, queue, batch)?;
        now = next.after(changed);
    }
    Ok(now)
}

fn round(alloc: Global, program: Program) -> Result<Trial, NoMemory>
    ensures came { IfOk result (λ trial. Came program trial.program trial.changed) }
    ensures done { IfOk result (λ trial. trial.changed ≡ false → (q : ℕ) → QueueDone program q) }
    ensures turn { IfOk result (λ trial. Round program trial.program) }
{
    let count = program.queues.len();
    let mut now = Trial::unchanged(program);
    for queue in 0..count {
        let Trial { program, changed } = now;
        let next = queue_round(alloc, program, queue)?;
        now = next.after(changed);
    }
    Ok(now)
}

/// Rounds, until one changes nothing.
pub fn settled(alloc: Global, program: Program) -> Result<Program, NoMemory>
    requires { Passes program }
    ensures tight { IfOk result (λ now. Tight now) }
    ensures stands { IfOk result (λ now. (given : programs.Program) → StandsTo given program → StandsTo given now) }
    ensures tightened { IfOk result (λ now. IsTightened program now) }
{
    let mut now = program;
    loop {
        let next = round(alloc, now)?;
        if !next.changed {
            return Ok(next.program);
        }
        now = next.program;
    }
}
