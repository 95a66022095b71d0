//! The command `run`.

ghost use Rattle.std.specs.Prelude.{Bool, IfOk};
ghost use Rattle.compile.specs.Right.{IsRightFor};
ghost use Rattle.compile.specs.Submitted.{submitted};
ghost use Rattle.frame.specs.Numbered.{numbered};
ghost use Rattle.top.specs.Answers.{RunsFile};
ghost use Rattle.compile_file.specs.Files.{frame_file};
ghost use Rattle.compile_file.specs.Compiles.{Compiles};
ghost use Rattle.device_run.specs.Keepers.{Kept};
ghost use Rattle.top.specs.Headline.{RunsFrame};
ghost use Rattle.frame_cull.specs.Culled.{AreKept};

use crate::readbacks::frame_text;
use crate::reply::{Reply, ran, still};
use answer::refusal;
use base::{NoMemory, RunOptions};
use base_io::Gate;
use check_program::Checked;
use cli::Form;
use compile_file::{compiled, valid_frame};
use compile_record::Compiled;
use device_run::{Keep, run_program};
use file_frame::FrameReadError;
use frame::ValidFrame;
use std::alloc::Global;
use std::sync::Wait;
use std::thread::Threads;

#[tactic(auto, using(answer::proofs::KeptLemmas::one_each))]
fn run_compiled<R: Threads + Wait + Sync, G: Gate + Sync, K: Keep>(
    rt: &R,
    alloc: Global,
    options: RunOptions,
    trace: bool,
    good: &ValidFrame,
    made: &Compiled<Checked>,
    gate: &G,
    keeper: &mut K,
) -> Result<Reply, NoMemory>
    requires kept { AreKept (numbered good.now) made.now.kept }
    requires right { IsRightFor (numbered good.now) made.now.program.program }
    ensures frame { (tight : Bool) → Compiles tight (numbered good.now) (submitted made.now) →
        IfOk result (λ reply. Kept (K.kept keeper.old) (K.kept keeper.new) (λ devices. RunsFrame options trace tight good.now devices reply)) }
{
    let device = run_program(rt, alloc, &made.program, options, gate)?;
    let text = frame_text(alloc, good, &made.kept, device.device(), trace)?;
    ran(alloc, keeper, device, text)
}

fn run_frame<R: Threads + Wait + Sync, G: Gate + Sync, K: Keep>(
    rt: &R,
    alloc: Global,
    options: RunOptions,
    trace: bool,
    tight: bool,
    good: &ValidFrame,
    gate: &G,
    keeper: &mut K,
) -> Result<Reply, NoMemory>
    ensures frame { IfOk result (λ reply. Kept (K.kept keeper.old) (K.kept keeper.new) (λ devices. RunsFrame options trace tight good.now devices reply)) }
{
    let made = compiled(alloc, good, tight)?;
    run_compiled(rt, alloc, options, trace, good, &made, gate, keeper)
}

/// The answer to the bytes of a frame file.
pub fn run_file<R: Threads + Wait + Sync, G: Gate + Sync, K: Keep>(
    rt: &R,
    alloc: Global,
    options: RunOptions,
    trace: bool,
    tight: bool,
    bytes: &[u8],
    gate: &G,
    keeper: &mut K,
) -> Result<Reply, NoMemory>
    ensures file { IfOk result (λ reply. Kept (K.kept keeper.old) (K.kept keeper.new) (λ devices. RunsFile options trace tight (frame_file bytes.now) devices reply)) }
{
    match valid_frame(alloc, bytes) {
        Ok(good) => run_frame(rt, alloc, options, trace, tight, &good, gate, keeper),
        Err(FrameReadError::Refused(fault)) => Ok(still(refusal(alloc, Form::Line, &fault)?)),
        Err(FrameReadError::NoMemory) => Err(NoMemory),
    }
}
