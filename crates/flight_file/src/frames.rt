//! Frames, one on each line.

ghost use Rattle.std.specs.Prelude.{◌≡◌, ◌≤◌, IfOk, length, map};
ghost use Rattle.flight_file.specs.Internal.Reading.{Gives, in_line};
ghost use Rattle.flight_file.specs.Files.{frames_of};
ghost use Rattle.compile_file.specs.Files.{frame_file};
ghost use Rattle.flight_file.specs.declared.frames.FlightFileError.TheVariants as ends;

use crate::refusal::Refusal;
use base::{List, NoMemory};
use compile_file::valid_frame;
use file_frame::FrameReadError;
use frame::ValidFrame;
use std::alloc::Global;

/// Why there are no frames.
#[derive(Debug, Drop)]
pub(crate) enum FlightFileError {
    Refused(Refusal),
    NoMemory,
}

impl From<NoMemory> for FlightFileError {
    ghost from_gives = { λ _ e. e ≡ ends.NoMemory };

    fn from(_: NoMemory) -> FlightFileError {
        FlightFileError::NoMemory
    }
}

fn frame_at(alloc: Global, frame: u32, line: &[u8]) -> Result<ValidFrame, FlightFileError>
    ensures { Gives (in_line frame (frame_file line.now)) result }
{
    match valid_frame(alloc, line) {
        Ok(good) => Ok(good),
        Err(FrameReadError::Refused(fault)) => {
            Err(FlightFileError::Refused(Refusal::Frame { frame, fault }))
        }
        Err(FrameReadError::NoMemory) => Err(FlightFileError::NoMemory),
    }
}

#[tactic(auto, using(crate::proofs::Reading::frames_end))]
/// The frames of these lines, or the first line that has a fault.
pub(crate) fn frames_of(alloc: Global, lines: &[&[u8]]) -> Result<List<ValidFrame>, FlightFileError>
    requires { length lines.now ≤ 64 }
    ensures frames { Gives (frames_of 0 (map (λ line. line.now) lines.now)) result }
    ensures many { IfOk result (λ frames. length frames ≡ length lines.now) }
{
    let mut frames = List::new(alloc);
    for (i, line) in lines.iter().enumerate() {
        let good = frame_at(alloc, i as u32, line)?;
        frames.push(good)?;
    }
    Ok(frames)
}
