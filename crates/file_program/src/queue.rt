//! Queues in a file.

ghost use Rattle.file_program.specs.Batches.{queue_at, queue_data, FitsQueue};

use crate::batch::BatchForm;
use file_json::{
    ListForm, Location, ReadError, Reader, TextForm, Writer, object, others, required, with_form,
};
use file_shapes::FamilyWord;
use program::Queue;
use serde_json::{Map, Value};
use std::alloc::{AllocError, Global};

/// An entry of `queues`.
pub struct QueueForm;

impl Reader for QueueForm {
    type Out = Queue;

    ghost reads = { queue_at };

    ghost Fits = { FitsQueue };

    #[tactic(auto, unfolding(crate::specs::Batches::queue_at))]
    fn read(alloc: Global, at: &Location<'_>, json: &Value) -> Result<Queue, ReadError> {
        object(alloc, at, json)?;
        let family = required::<TextForm<FamilyWord>>(alloc, at, "family", json)?;
        let batches = required::<ListForm<BatchForm>>(alloc, at, "batches", json)?;
        others(alloc, at, &["family", "batches"], json)?;
        Ok(Queue { family, batches })
    }
}

impl Writer for QueueForm {
    type In = Queue;

    ghost writes = { queue_data };

    fn write(alloc: Global, queue: &Queue) -> Result<Value, AllocError> {
        let members = with_form::<ListForm<BatchForm>>(
            alloc,
            Map::new(alloc),
            "batches",
            &queue.batches,
        )?;
        let members = with_form::<TextForm<FamilyWord>>(alloc, members, "family", &queue.family)?;
        Ok(Value::Object(members))
    }
}
