//! Truth values in a file.

ghost use Rattle.std.specs.Prelude.{⊤};
ghost use Rattle.file_frame.specs.Flags.{flag_at};

use file_json::{Location, ReadError, Reader};
use serde_json::Value;
use std::alloc::Global;

/// A truth value.
pub struct FlagForm;

impl Reader for FlagForm {
    type Out = bool;

    ghost reads = { flag_at };

    ghost Fits = { λ _. ⊤ };

    fn read(alloc: Global, at: &Location<'_>, value: &Value) -> Result<bool, ReadError> {
        match value.as_bool() {
            Some(flag) => Ok(flag),
            None => Err(at.refused(alloc)),
        }
    }
}
