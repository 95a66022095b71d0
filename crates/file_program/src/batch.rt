//! Batches in a file.

ghost use Rattle.file_program.specs.Batches.{batch_at, batch_data, FitsBatch};

use crate::item::ItemForm;
use crate::signal::SignalForm;
use crate::wait::WaitForm;
use base::List;
use file_json::{
    ListForm, Location, ReadError, Reader, Writer, object, optional, others, with_form,
};
use program::Batch;
use serde_json::{Map, Value};
use std::alloc::{AllocError, Global};

/// An entry of `batches`.
pub struct BatchForm;

impl Reader for BatchForm {
    type Out = Batch;

    ghost reads = { batch_at };

    ghost Fits = { FitsBatch };

    #[tactic(auto, unfolding(crate::specs::Batches::batch_at))]
    fn read(alloc: Global, at: &Location<'_>, json: &Value) -> Result<Batch, ReadError> {
        object(alloc, at, json)?;
        let waits = optional::<ListForm<WaitForm>>(alloc, at, "waits", json)?;
        let items = optional::<ListForm<ItemForm>>(alloc, at, "items", json)?;
        let signal = optional::<SignalForm>(alloc, at, "signal", json)?;
        others(alloc, at, &["waits", "items", "signal"], json)?;
        Ok(Batch {
            waits: waits.unwrap_or(List::new(alloc)),
            items: items.unwrap_or(List::new(alloc)),
            signal,
        })
    }
}

impl Writer for BatchForm {
    type In = Batch;

    ghost writes = { batch_data };

    fn write(alloc: Global, batch: &Batch) -> Result<Value, AllocError> {
        let members = with_form::<ListForm<ItemForm>>(
            alloc,
            Map::new(alloc),
            "items",
            &batch.items,
        )?;
        let members = with_form::<ListForm<WaitForm>>(alloc, members, "waits", &batch.waits)?;
        match &batch.signal {
            None => Ok(Value::Object(members)),
            Some(signal) => {
                let members = with_form::<SignalForm>(alloc, members, "signal", signal)?;
                Ok(Value::Object(members))
            }
        }
    }
}
