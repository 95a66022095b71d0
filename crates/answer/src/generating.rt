//! The command `gen`.

ghost use Rattle.std.specs.Prelude.{◌≤◌, IfOk};
ghost use Rattle.answer.specs.Answers.{GeneratesFrame};

use crate::answer::Answer;
use crate::migrate::migrate_frame;
use base::NoMemory;
use frame_gen::generate;
use std::alloc::Global;

/// The answer to the command with this number and so many passes.
pub fn generate_frame(alloc: Global, number: u32, passes: u32) -> Result<Answer, NoMemory>
    requires some { 1 ≤ passes }
    requires few { passes ≤ 256 }
    ensures frame { IfOk result (GeneratesFrame number passes) }
{
    let good = generate(alloc, number, passes)?;
    migrate_frame(alloc, &good)
}
