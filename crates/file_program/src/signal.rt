//! Signals in a file.

ghost use Rattle.file_program.specs.Timelines.{signal_at, signal_data, FitsSignal};

use crate::mask::StagesForm;
use crate::value::ValueForm;
use file_json::{
    Location, ReadError, Reader, Writer, object, others, required, with_form, with_member,
};
use program::Signal;
use serde_json::{Map, Value};
use std::alloc::{AllocError, Global};

/// The member `signal` of a batch.
pub struct SignalForm;

impl Reader for SignalForm {
    type Out = Signal;

    ghost reads = { signal_at };

    ghost Fits = { FitsSignal };

    #[tactic(auto, unfolding(crate::specs::Timelines::signal_at))]
    fn read(alloc: Global, at: &Location<'_>, json: &Value) -> Result<Signal, ReadError> {
        object(alloc, at, json)?;
        let value = required::<ValueForm>(alloc, at, "value", json)?;
        let stages = required::<StagesForm>(alloc, at, "stage", json)?;
        others(alloc, at, &["value", "stage"], json)?;
        Ok(Signal { value, stages })
    }
}

impl Writer for SignalForm {
    type In = Signal;

    ghost writes = { signal_data };

    fn write(alloc: Global, signal: &Signal) -> Result<Value, AllocError> {
        let members = with_form::<StagesForm>(alloc, Map::new(alloc), "stage", &signal.stages)?;
        let members = with_member(alloc, members, "value", Value::from(signal.value))?;
        Ok(Value::Object(members))
    }
}
