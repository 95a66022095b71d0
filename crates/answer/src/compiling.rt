//! The command `compile`.

ghost use Rattle.std.specs.Prelude.{IfOk};
ghost use Rattle.answer.specs.Answers.{CompilesFrame};

use crate::answer::{Answer, done};
use base::NoMemory;
use base_text::Lines;
use compile_file::compiled;
use file_program::write_program;
use frame::ValidFrame;
use std::alloc::Global;

/// The answer to the command on a valid frame.
pub fn compile_frame(alloc: Global, good: &ValidFrame, tight: bool) -> Result<Answer, NoMemory>
    ensures frame { IfOk result (CompilesFrame tight good.now) }
{
    let made = compiled(alloc, good, tight)?;
    let mut text = write_program(alloc, made.program.shaped().program())?;
    text.end_line()?;
    Ok(done(text))
}
