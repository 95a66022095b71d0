//! What passes write, in a file.

ghost use Rattle.std.specs.Prelude.{◌≡◌, IfOk};
ghost use Rattle.file_json.specs.Locations.{legs};
ghost use Rattle.file_json.specs.Reading.{Gives};
ghost use Rattle.file_frame.specs.Writes.{new_at, change_at, write_at, write_data, is_new, FitsWrite};
ghost use Rattle.serde_json.specs.View.{view};

use crate::spot::SpotForm;
use file_json::{Location, ReadError, Reader, Writer, object, others, required, with_form};
use frame::{Spot, Write};
use serde_json::{Map, Value};
use std::alloc::{AllocError, Global};

/// An entry of a pass's `writes`.
pub struct WriteForm<const FORMAT: u32>;

// With both members it is of new contents, and `change` is unknown; with neither, `new` is absent.
fn is_new(value: &Value) -> bool
    ensures { result ≡ is_new (view value.now) }
{
    value.get("new").is_some() || value.get("change").is_none()
}

#[tactic(auto, unfolding(crate::specs::Writes::new_at))]
fn new<const FORMAT: u32>(
    alloc: Global,
    at: &Location<'_>,
    value: &Value,
) -> Result<Write<Spot>, ReadError>
    ensures gives { Gives result (new_at FORMAT (legs at.now) (view value.now)) }
    ensures fits { IfOk result FitsWrite }
{
    let what = required::<SpotForm<FORMAT>>(alloc, at, "new", value)?;
    others(alloc, at, &["new"], value)?;
    Ok(Write { what, fresh: true })
}

#[tactic(auto, unfolding(crate::specs::Writes::change_at))]
fn change<const FORMAT: u32>(
    alloc: Global,
    at: &Location<'_>,
    value: &Value,
) -> Result<Write<Spot>, ReadError>
    ensures gives { Gives result (change_at FORMAT (legs at.now) (view value.now)) }
    ensures fits { IfOk result FitsWrite }
{
    let what = required::<SpotForm<FORMAT>>(alloc, at, "change", value)?;
    others(alloc, at, &["change"], value)?;
    Ok(Write { what, fresh: false })
}

impl<const FORMAT: u32> Reader for WriteForm<FORMAT> {
    type Out = Write<Spot>;

    ghost reads = { write_at FORMAT };

    ghost Fits = { FitsWrite };

    #[tactic(auto, unfolding(crate::specs::Writes::write_at))]
    fn read(alloc: Global, at: &Location<'_>, value: &Value) -> Result<Write<Spot>, ReadError> {
        object(alloc, at, value)?;
        if is_new(value) {
            new::<FORMAT>(alloc, at, value)
        } else {
            change::<FORMAT>(alloc, at, value)
        }
    }
}

impl<const FORMAT: u32> Writer for WriteForm<FORMAT> {
    type In = Write<Spot>;

    ghost writes = { write_data };

    fn write(alloc: Global, write: &Write<Spot>) -> Result<Value, AllocError> {
        let word = if write.fresh { "new" } else { "change" };
        let members = with_form::<SpotForm<FORMAT>>(alloc, Map::new(alloc), word, &write.what)?;
        Ok(Value::Object(members))
    }
}
