//! Memories in a file.

ghost use Rattle.std.specs.Prelude.{◌≡◌, IfOk};
ghost use Rattle.file_json.specs.Locations.{legs};
ghost use Rattle.file_json.specs.Reading.{Gives};
ghost use Rattle.file_program.specs.Memories.{plain_at, import_at, is_plain, memory_at, memory_data, FitsMemory};
ghost use Rattle.serde_json.specs.View.{view};

use file_json::{
    Location, NumberForm, ReadError, Reader, Writer, object, others, required, with_form,
};
use file_shapes::HexForm;
use program::Memory;
use serde_json::{Map, Value};
use std::alloc::{AllocError, Global};

/// An entry of `memories`.
pub struct MemoryForm;

// With both members it is plain, and `import` is unknown; with neither, `size` is absent.
fn is_plain(json: &Value) -> bool
    ensures { result ≡ is_plain (view json.now) }
{
    json.get("size").is_some() || json.get("import").is_none()
}

#[tactic(auto, unfolding(crate::specs::Memories::plain_at))]
fn plain(alloc: Global, at: &Location<'_>, json: &Value) -> Result<Memory, ReadError>
    ensures gives { Gives result (plain_at (legs at.now) (view json.now)) }
    ensures fits { IfOk result FitsMemory }
{
    let size = required::<NumberForm>(alloc, at, "size", json)?;
    others(alloc, at, &["size"], json)?;
    Ok(Memory::Plain { size })
}

#[tactic(auto, unfolding(crate::specs::Memories::import_at))]
fn import(alloc: Global, at: &Location<'_>, json: &Value) -> Result<Memory, ReadError>
    ensures gives { Gives result (import_at (legs at.now) (view json.now)) }
    ensures fits { IfOk result FitsMemory }
{
    let bytes = required::<HexForm>(alloc, at, "import", json)?;
    others(alloc, at, &["import"], json)?;
    Ok(Memory::Import { bytes })
}

impl Reader for MemoryForm {
    type Out = Memory;

    ghost reads = { memory_at };

    ghost Fits = { FitsMemory };

    #[tactic(auto, unfolding(crate::specs::Memories::memory_at))]
    fn read(alloc: Global, at: &Location<'_>, json: &Value) -> Result<Memory, ReadError> {
        object(alloc, at, json)?;
        if is_plain(json) {
            plain(alloc, at, json)
        } else {
            import(alloc, at, json)
        }
    }
}

impl Writer for MemoryForm {
    type In = Memory;

    ghost writes = { memory_data };

    fn write(alloc: Global, memory: &Memory) -> Result<Value, AllocError> {
        match memory {
            Memory::Plain { size } => {
                let members = with_form::<NumberForm>(alloc, Map::new(alloc), "size", size)?;
                Ok(Value::Object(members))
            }
            Memory::Import { bytes } => {
                let members = with_form::<HexForm>(alloc, Map::new(alloc), "import", bytes)?;
                Ok(Value::Object(members))
            }
        }
    }
}
