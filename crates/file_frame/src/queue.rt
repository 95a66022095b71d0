//! Queues in a file.

ghost use Rattle.file_frame.specs.Queues.{queue_at, queue_data, FitsQueue};

use file_json::{
    Location, NameForm, ReadError, Reader, TextForm, Writer, object, others, required, with_form,
};
use file_shapes::FamilyWord;
use frame::QueueDecl;
use serde_json::{Map, Value};
use std::alloc::{AllocError, Global};

/// An entry of `queues`.
pub struct QueueForm;

impl Reader for QueueForm {
    type Out = QueueDecl;

    ghost reads = { queue_at };

    ghost Fits = { FitsQueue };

    #[tactic(auto, unfolding(crate::specs::Queues::queue_at))]
    fn read(alloc: Global, at: &Location<'_>, value: &Value) -> Result<QueueDecl, ReadError> {
        object(alloc, at, value)?;
        let name = required::<NameForm>(alloc, at, "name", value)?;
        let family = required::<TextForm<FamilyWord>>(alloc, at, "family", value)?;
        others(alloc, at, &["name", "family"], value)?;
        Ok(QueueDecl { name, family })
    }
}

impl Writer for QueueForm {
    type In = QueueDecl;

    ghost writes = { queue_data };

    fn write(alloc: Global, queue: &QueueDecl) -> Result<Value, AllocError> {
        let members = with_form::<TextForm<FamilyWord>>(
            alloc,
            Map::new(alloc),
            "family",
            &queue.family,
        )?;
        let members = with_form::<NameForm>(alloc, members, "name", &queue.name)?;
        Ok(Value::Object(members))
    }
}
