//! The canonical text of a frame.

ghost use Rattle.std.specs.Prelude.{◌≡◌, Ok, None, IfOk};
ghost use Rattle.frame.specs.FirstFault.{first_fault};
ghost use Rattle.file_frame.specs.Files.{frame_of, frame_text};
ghost use Rattle.file_frame.specs.Frames.{FitsFrame};

use crate::whole_frame::FrameForm;
use base::{NoMemory, Text};
use file_json::{Typed, write_json};
use frame::{Frame, frame_laws};
use std::alloc::Global;

/// The canonical text of a frame: its value in format 2, compact, with the members of each object in the byte order of
/// their names. From it a frame is read again that was read, or that breaks no rule.
pub fn write_frame(alloc: Global, frame: &Frame) -> Result<Text, NoMemory>
    ensures text { IfOk result (λ text. text ≡ frame_text frame.now) }
    ensures again { IfOk result (λ text. FitsFrame frame.now → frame_of text ≡ Ok frame.now) }
    ensures good { IfOk result (λ text. first_fault frame.now ≡ None → frame_of text ≡ Ok frame.now) }
{
    frame_laws();
    <FrameForm<2>>::look(frame);
    write_json::<FrameForm<2>>(alloc, frame)
}
