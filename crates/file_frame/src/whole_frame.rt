//! The frame that a JSON value is.

ghost use Rattle.file_frame.specs.Frames.{frame_at, frame_data, FitsFrame};

use crate::pass::PassForm;
use crate::queue::QueueForm;
use crate::resource::ResourceForm;
use crate::spot::SpotForm;
use file_json::{
    ListForm, Location, ReadError, Reader, Writer, others, required, with_form, with_member,
};
use frame::Frame;
use serde_json::{Map, Value};
use std::alloc::{AllocError, Global};

/// A whole frame file of a format, whose `format` was examined before.
pub struct FrameForm<const FORMAT: u32>;

impl<const FORMAT: u32> Reader for FrameForm<FORMAT> {
    type Out = Frame;

    ghost reads = { frame_at FORMAT };

    ghost Fits = { FitsFrame };

    #[tactic(auto, unfolding(crate::specs::Frames::frame_at))]
    fn read(alloc: Global, at: &Location<'_>, value: &Value) -> Result<Frame, ReadError> {
        let queues = required::<ListForm<QueueForm>>(alloc, at, "queues", value)?;
        let resources = required::<ListForm<ResourceForm<FORMAT>>>(alloc, at, "resources", value)?;
        let passes = required::<ListForm<PassForm<FORMAT>>>(alloc, at, "passes", value)?;
        let exports = required::<ListForm<SpotForm<FORMAT>>>(alloc, at, "exports", value)?;
        others(
            alloc,
            at,
            &["format", "queues", "resources", "passes", "exports"],
            value,
        )?;
        Ok(Frame {
            queues,
            resources,
            passes,
            exports,
        })
    }
}

impl<const FORMAT: u32> Writer for FrameForm<FORMAT> {
    type In = Frame;

    ghost writes = { frame_data };

    fn write(alloc: Global, frame: &Frame) -> Result<Value, AllocError> {
        let members = with_form::<ListForm<SpotForm<FORMAT>>>(
            alloc,
            Map::new(alloc),
            "exports",
            &frame.exports,
        )?;
        let members = with_member(alloc, members, "format", Value::from(2u32))?;
        let members = with_form::<ListForm<PassForm<FORMAT>>>(
            alloc,
            members,
            "passes",
            &frame.passes,
        )?;
        let members = with_form::<ListForm<QueueForm>>(alloc, members, "queues", &frame.queues)?;
        let members = with_form::<ListForm<ResourceForm<FORMAT>>>(
            alloc,
            members,
            "resources",
            &frame.resources,
        )?;
        Ok(Value::Object(members))
    }
}
