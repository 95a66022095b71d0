//! The command `exec`.

ghost use Rattle.std.specs.Prelude.{◌⊎◌, IfOk};
ghost use Rattle.check_program.specs.Sound.{IsSound};
ghost use Rattle.top.specs.Answers.{ExecutesFile};
ghost use Rattle.compile_file.specs.Files.{program_file};
ghost use Rattle.device_run.specs.Keepers.{Kept};
ghost use Rattle.top.specs.Headline.{Executes};
ghost use Rattle.top.specs.Replies.{IsStill};
ghost use Rattle.answer.specs.Plain.{Rejects};
ghost use Rattle.cli.specs.declared.form.Form.TheVariants.{Line};

use crate::readbacks::exec_text;
use crate::reply::{Reply, ran, still};
use answer::{checked, program_refusal};
use base::{NoMemory, RunOptions};
use base_io::Gate;
use check_program::Checked;
use cli::Form;
use compile_file::valid_program;
use device_run::{Keep, run_program};
use file_program::ProgramReadError;
use program::ValidProgram;
use std::alloc::Global;
use std::sync::Wait;
use std::thread::Threads;

// A sound program runs on a device.
fn execute_checked<R: Threads + Wait + Sync, G: Gate + Sync, K: Keep>(
    rt: &R,
    alloc: Global,
    options: RunOptions,
    trace: bool,
    program: &Checked,
    gate: &G,
    keeper: &mut K,
) -> Result<Reply, NoMemory>
    requires sound { IsSound program.now.program }
    ensures program { IfOk result (λ reply. Kept (K.kept keeper.old) (K.kept keeper.new) (λ devices. Executes options trace program.now.program devices reply)) }
{
    let device = run_program(rt, alloc, program, options, gate)?;
    let text = exec_text(alloc, device.device(), trace)?;
    ran(alloc, keeper, device, text)
}

fn execute_program<R: Threads + Wait + Sync, G: Gate + Sync, K: Keep>(
    rt: &R,
    alloc: Global,
    options: RunOptions,
    trace: bool,
    program: ValidProgram,
    gate: &G,
    keeper: &mut K,
) -> Result<Reply, NoMemory>
    ensures program { IfOk result (λ reply. Kept (K.kept keeper.old) (K.kept keeper.new) (λ devices. Executes options trace program devices reply ⊎ IsStill (Rejects Line program) devices reply)) }
{
    match checked(alloc, Form::Line, program) {
        Ok(checked) => execute_checked(rt, alloc, options, trace, &checked, gate, keeper),
        Err(answer) => Ok(still(answer?)),
    }
}

/// The answer to the bytes of a submission.
pub fn execute_file<R: Threads + Wait + Sync, G: Gate + Sync, K: Keep>(
    rt: &R,
    alloc: Global,
    options: RunOptions,
    trace: bool,
    bytes: &[u8],
    gate: &G,
    keeper: &mut K,
) -> Result<Reply, NoMemory>
    ensures file { IfOk result (λ reply. Kept (K.kept keeper.old) (K.kept keeper.new) (λ devices. ExecutesFile options trace (program_file bytes.now) devices reply)) }
{
    match valid_program(alloc, bytes) {
        Ok(program) => execute_program(rt, alloc, options, trace, program, gate, keeper),
        Err(ProgramReadError::Refused(fault)) => Ok(still(program_refusal(
            alloc,
            Form::Line,
            &fault,
        )?)),
        Err(ProgramReadError::NoMemory) => Err(NoMemory),
    }
}
