//! The commands that read a frame file.

ghost use Rattle.std.specs.Prelude.{IfOk};
ghost use Rattle.answer.specs.Answers.{AnswersFrame, AnswersFrameFile};
ghost use Rattle.compile_file.specs.Files.{frame_file};

use crate::answer::{Answer, refusal};
use crate::auto::{auto_frame, cost_frame};
use crate::bound::bound_frame;
use crate::compiling::compile_frame;
use crate::cull::cull_frame;
use crate::form::frame_form;
use crate::meaning::mean_frame;
use crate::migrate::migrate_frame;
use crate::place::place_frame;
use base::NoMemory;
use cli::FrameCommand;
use compile_file::valid_frame;
use file_frame::FrameReadError;
use frame::ValidFrame;
use std::alloc::Global;

/// The answer to the bytes of a frame file.
pub fn answer_frame_file(
    alloc: Global,
    asked: FrameCommand,
    bytes: &[u8],
) -> Result<Answer, NoMemory>
    ensures file { IfOk result (AnswersFrameFile asked (frame_file bytes.now)) }
{
    match valid_frame(alloc, bytes) {
        Ok(good) => answer_frame(alloc, asked, &good),
        Err(FrameReadError::Refused(fault)) => refusal(alloc, frame_form(asked), &fault),
        Err(FrameReadError::NoMemory) => Err(NoMemory),
    }
}

fn answer_frame(alloc: Global, asked: FrameCommand, good: &ValidFrame) -> Result<Answer, NoMemory>
    ensures frame { IfOk result (AnswersFrame asked good.now) }
{
    match asked {
        FrameCommand::Cull { form } => cull_frame(alloc, form, good),
        FrameCommand::Place { form } => place_frame(alloc, form, good),
        FrameCommand::Bound { form } => bound_frame(alloc, form, good),
        FrameCommand::Compile { tight } => compile_frame(alloc, good, tight),
        FrameCommand::Auto => auto_frame(alloc, good),
        FrameCommand::Cost { form } => cost_frame(alloc, form, good),
        FrameCommand::Meaning => mean_frame(alloc, good),
        FrameCommand::Migrate => migrate_frame(alloc, good),
    }
}
