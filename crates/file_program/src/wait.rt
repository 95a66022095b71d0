//! Waits in a file.

ghost use Rattle.file_program.specs.Timelines.{wait_at, wait_data, FitsWait};

use crate::mask::StagesForm;
use crate::value::ValueForm;
use file_json::{
    Location, NumberForm, ReadError, Reader, Writer, object, others, required, with_form,
    with_member,
};
use program::WaitFor;
use serde_json::{Map, Value};
use std::alloc::{AllocError, Global};

/// An entry of `waits`.
pub struct WaitForm;

impl Reader for WaitForm {
    type Out = WaitFor;

    ghost reads = { wait_at };

    ghost Fits = { FitsWait };

    #[tactic(auto, unfolding(crate::specs::Timelines::wait_at))]
    fn read(alloc: Global, at: &Location<'_>, json: &Value) -> Result<WaitFor, ReadError> {
        object(alloc, at, json)?;
        let queue = required::<NumberForm>(alloc, at, "queue", json)?;
        let value = required::<ValueForm>(alloc, at, "value", json)?;
        let stages = required::<StagesForm>(alloc, at, "stage", json)?;
        others(alloc, at, &["queue", "value", "stage"], json)?;
        Ok(WaitFor {
            queue,
            value,
            stages,
        })
    }
}

impl Writer for WaitForm {
    type In = WaitFor;

    ghost writes = { wait_data };

    fn write(alloc: Global, wait: &WaitFor) -> Result<Value, AllocError> {
        let members = with_form::<NumberForm>(alloc, Map::new(alloc), "queue", &wait.queue)?;
        let members = with_form::<StagesForm>(alloc, members, "stage", &wait.stages)?;
        let members = with_member(alloc, members, "value", Value::from(wait.value))?;
        Ok(Value::Object(members))
    }
}
