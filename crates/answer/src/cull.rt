//! The command `cull`.

ghost use Rattle.std.specs.Prelude.{IfOk};
ghost use Rattle.frame.specs.Numbered.{numbered};
ghost use Rattle.answer.specs.Answers.{CullsFrame};
ghost use Rattle.frame_cull.specs.Culled.{AreKept};

use crate::answer::{Answer, done};
use base::NoMemory;
use cli::Form;
use frame::ValidFrame;
use frame_cull::{Kept, cull, versions_of};
use report_json::cull_told;
use std::alloc::Global;

/// Which passes of a frame are kept.
pub fn kept_of(alloc: Global, good: &ValidFrame) -> Result<Kept, NoMemory>
    ensures { IfOk result (AreKept (numbered good.now)) }
{
    let versions = versions_of(alloc, good)?;
    cull(alloc, good, &versions)
}

/// The answer to the command on a valid frame.
#[tactic(auto, using(crate::proofs::KeptLemmas::one_each))]
pub fn cull_frame(alloc: Global, form: Form, good: &ValidFrame) -> Result<Answer, NoMemory>
    ensures frame { IfOk result (CullsFrame form good.now) }
{
    let kept = kept_of(alloc, good)?;
    let text = cull_told(alloc, form, good, &kept)?;
    Ok(done(text))
}
