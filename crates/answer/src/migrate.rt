//! The command `migrate`.

ghost use Rattle.std.specs.Prelude.{IfOk};
ghost use Rattle.answer.specs.Answers.{MigratesFrame};

use crate::answer::{Answer, done};
use base::NoMemory;
use base_text::Lines;
use file_frame::write_frame;
use frame::ValidFrame;
use std::alloc::Global;

/// The answer to the command on a valid frame.
pub fn migrate_frame(alloc: Global, good: &ValidFrame) -> Result<Answer, NoMemory>
    ensures frame { IfOk result (MigratesFrame good.now) }
{
    let mut text = write_frame(alloc, good.frame())?;
    text.end_line()?;
    Ok(done(text))
}
