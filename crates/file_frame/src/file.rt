//! A frame file from its bytes.

ghost use Rattle.std.specs.Prelude.{◌≡◌, [], IfOk};
ghost use Rattle.file_json.specs.Reading.{Gives};
ghost use Rattle.file_frame.specs.Files.{frame_of, frame_in, shaped, unknown_format, FrameGives, Refuses};
ghost use Rattle.file_frame.specs.Frames.{format_at, frame_at, FitsFrame};
ghost use Rattle.serde_json.specs.View.{view};

use crate::whole_frame::FrameForm;
use base::{Leg, List, NoMemory, Path};
use file_json::{JsonError, Location, NumberForm, ReadError, Reader, object, read_json, required};
use frame::{Frame, FrameFault};
use serde_json::Value;
use std::alloc::Global;
use thiserror::Error;

/// Why bytes gave no frame.
#[derive(Debug, Drop, Error)]
pub enum FrameReadError {
    #[error("the bytes are no frame")]
    Refused(FrameFault),
    #[error("memory ran out")]
    NoMemory,
}

/// The frame that the bytes are, or the first fault of their form. They may be of any length.
pub fn read_frame(alloc: Global, bytes: &[u8]) -> Result<Frame, FrameReadError>
    ensures gives { FrameGives result (frame_of bytes.now) }
    ensures fits { IfOk result FitsFrame }
{
    match read_json(alloc, bytes) {
        Ok(value) => frame_in(alloc, &value),
        Err(JsonError::NoMemory) => Err(FrameReadError::NoMemory),
        Err(JsonError::NotJson) => Err(FrameReadError::Refused(FrameFault::not_json(alloc))),
    }
}

fn frame_in(alloc: Global, value: &Value) -> Result<Frame, FrameReadError>
    ensures gives { FrameGives result (frame_in (view value.now)) }
    ensures fits { IfOk result FitsFrame }
{
    match format(alloc, value) {
        Ok(1) => frame_of_format::<1>(alloc, value),
        Ok(2) => frame_of_format::<2>(alloc, value),
        Ok(_) => Err(unknown_format(alloc)),
        Err(ReadError::NoMemory) => Err(FrameReadError::NoMemory),
        Err(ReadError::Refused(path)) => Err(FrameReadError::Refused(FrameFault::misshapen(path))),
    }
}

#[tactic(auto, unfolding(crate::specs::Frames::format_at))]
fn format(alloc: Global, value: &Value) -> Result<u32, ReadError>
    ensures { Gives result (format_at [] (view value.now)) }
{
    object(alloc, &Location::Top, value)?;
    required::<NumberForm>(alloc, &Location::Top, "format", value)
}

fn frame_of_format<const FORMAT: u32>(alloc: Global, value: &Value) -> Result<Frame, FrameReadError>
    ensures gives { FrameGives result (shaped (frame_at FORMAT [] (view value.now))) }
    ensures fits { IfOk result FitsFrame }
{
    match <FrameForm<FORMAT>>::read(alloc, &Location::Top, value) {
        Ok(frame) => Ok(frame),
        Err(ReadError::NoMemory) => Err(FrameReadError::NoMemory),
        Err(ReadError::Refused(path)) => Err(FrameReadError::Refused(FrameFault::misshapen(path))),
    }
}

fn format_path(alloc: Global) -> Result<Path, NoMemory>
    ensures { IfOk result (λ path. path ≡ unknown_format.location) }
{
    let mut path = List::new(alloc);
    path.push(Leg::Member(List::from_slice(alloc, b"format")?))?;
    Ok(path)
}

// F3: the format is another whole number.
fn unknown_format(alloc: Global) -> FrameReadError
    ensures { Refuses result unknown_format }
{
    match format_path(alloc) {
        Ok(location) => FrameReadError::Refused(FrameFault {
            number: 3,
            limit: None,
            location,
        }),
        Err(NoMemory) => FrameReadError::NoMemory,
    }
}
