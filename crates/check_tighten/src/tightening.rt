//! Programs are tightened.

ghost use Rattle.std.specs.Prelude.{◌≡◌, IfOk};
ghost use Rattle.check_tighten.specs.Standing.{StandsTo};
ghost use Rattle.check_tighten.specs.Tight.{Passes, Tight};
ghost use Rattle.check_tighten.specs.Tightened.{IsTightened};

use crate::rounds::settled;
use base::NoMemory;
use check_program::{Checked, proved_sound};
use program::Program;
use std::alloc::Global;

// A copy of the program, which the rounds may change.
fn copied(alloc: Global, program: &Checked) -> Result<Program, NoMemory>
    ensures program { IfOk result (λ copy. copy ≡ program.now.program) }
    ensures passes { IfOk result (λ copy. Passes copy) }
{
    program.shaped().program().copy(alloc)
}

/// The program without the waits, and without the stages of waits, that soundness does not need. Waits are tried in the order
/// of their nodes, and the stages of each in the order of their bits, in rounds until one changes nothing. That is one program
/// (`tightened`, by `tighten_law`); another order could leave out more. Each trial is a check of the whole program. Want of
/// memory is the one refusal.
pub fn tighten(alloc: Global, program: Checked) -> Result<Checked, NoMemory>
    ensures tight { IfOk result (λ checked. Tight checked.program) }
    ensures stands { IfOk result (λ checked. StandsTo program.program checked.program) }
    ensures tightened { IfOk result (λ checked. IsTightened program.program checked.program) }
{
    let copy = copied(alloc, &program)?;
    let tight = settled(alloc, copy)?;
    proved_sound(alloc, tight)
}
