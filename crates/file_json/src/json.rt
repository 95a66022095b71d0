//! The JSON value of a file, and the text of one.

ghost use Rattle.std.specs.Prelude.{◌≡◌, ◌≤◌, false, Some, IfOk};
ghost use Rattle.file_json.specs.Json.{json_of, JsonGives};
ghost use Rattle.serde_json.specs.Data.{depth};
ghost use Rattle.serde_json.specs.Read.{max_depth};
ghost use Rattle.serde_json.specs.Written.{has_float, compact_text};

use crate::Writer;
use base::{List, NoMemory, Text};
use serde_json::Value;
use std::alloc::Global;
use std::str;
use thiserror::Error;

/// Why bytes gave no JSON value.
#[derive(Clone, Copy, Debug, PartialEq, Eq, Error)]
pub enum JsonError {
    #[error("memory ran out")]
    NoMemory,
    /// The bytes are not UTF-8, are no JSON text, nest deeper than 127 levels, or have a number that no finite float is
    /// near.
    #[error("the bytes are no JSON text")]
    NotJson,
}

/// The one JSON value that the bytes are.
pub fn read_json(alloc: Global, bytes: &[u8]) -> Result<Value, JsonError>
    ensures { JsonGives result (json_of bytes.now) }
{
    let Ok(text) = str::from_utf8(bytes) else {
        return Err(JsonError::NotJson);
    };
    match Value::from_str(alloc, text) {
        Ok(value) => Ok(value),
        Err(e) => if e.is_memory() {
            Err(JsonError::NoMemory)
        } else {
            Err(JsonError::NotJson)
        },
    }
}

/// The compact text of what a value is written as, from which the same JSON is read.
pub fn write_json<F: Writer>(alloc: Global, value: &F::In) -> Result<Text, NoMemory>
    ensures text { IfOk result (λ text. has_float (F.writes value.now) ≡ false → text ≡ compact_text (F.writes value.now)) }
    ensures again { IfOk result (λ text. depth (F.writes value.now) ≤ max_depth → json_of text ≡ Some (F.writes value.now)) }
{
    let json = F::write(alloc, value)?;
    let text = json.to_vec(alloc)?;
    Ok(List::from_vec(text))
}
