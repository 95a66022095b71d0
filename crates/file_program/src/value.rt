//! Values of timelines in a file.

ghost use Rattle.std.specs.Prelude.{⊤};
ghost use Rattle.file_json.specs.Leaves.{number_data};
ghost use Rattle.file_program.specs.Values.{value_at};

use file_json::{Location, ReadError, Reader, Writer};
use serde_json::Value;
use std::alloc::{AllocError, Global};

/// A whole number that a `u64` holds.
pub struct ValueForm;

impl Reader for ValueForm {
    type Out = u64;

    ghost reads = { value_at };

    ghost Fits = { λ _. ⊤ };

    fn read(alloc: Global, at: &Location<'_>, json: &Value) -> Result<u64, ReadError> {
        match json.as_u64() {
            Some(value) => Ok(value),
            None => Err(at.refused(alloc)),
        }
    }
}

impl Writer for ValueForm {
    type In = u64;

    ghost writes = { number_data };

    fn write(_alloc: Global, value: &u64) -> Result<Value, AllocError> {
        Ok(Value::from(*value))
    }
}
