//! What a frame is compiled to.

ghost use Rattle.std.specs.Prelude.{IfOk, true, false};
ghost use Rattle.frame.specs.Numbered.{numbered};
ghost use Rattle.compile.specs.Submitted.{submitted};
ghost use Rattle.compile_file.specs.Compiles.{Compiles};

use base::NoMemory;
use check_program::Checked;
use check_tighten::tighten;
use compile::compile;
use compile_record::Compiled;
use frame::ValidFrame;
use law_tight::wait_laws;
use std::alloc::Global;

// The same without the waits that soundness does not need, which change nothing of what the host reads.
fn tightened(
    alloc: Global,
    good: &ValidFrame,
    made: Compiled<Checked>,
) -> Result<Compiled<Checked>, NoMemory>
    requires { Compiles false (numbered good.now) (submitted made) }
    ensures { IfOk result (λ tight. Compiles true (numbered good.now) (submitted tight)) }
{
    wait_laws();
    Ok(Compiled {
        program: tighten(alloc, made.program)?,
        ..made
    })
}

/// What the kept passes of a frame are compiled to; where it is to be tight, without the waits that it does not need.
#[tactic(auto, using(crate::proofs::TightLemmas::as_compiled))]
pub fn compiled(
    alloc: Global,
    good: &ValidFrame,
    tight: bool,
) -> Result<Compiled<Checked>, NoMemory>
    ensures { IfOk result (λ made. Compiles tight (numbered good.now) (submitted made)) }
{
    let made = compile(alloc, good)?;
    if tight {
        tightened(alloc, good, made)
    } else {
        Ok(made)
    }
}
