//! The sides of an image in a file.

ghost use Rattle.std.specs.Prelude.{IfOk};
ghost use Rattle.file_json.specs.Locations.{legs};
ghost use Rattle.file_json.specs.Reading.{Gives};
ghost use Rattle.file_shapes.specs.Sides.{sides_at, two_at, FitsSides};
ghost use Rattle.serde_json.specs.View.{items_view};

use file_json::{Location, RangeForm, ReadError, Reader};
use serde_json::Value;
use std::alloc::Global;

/// A width and a height, in texels.
#[derive(Clone, Copy, Debug, PartialEq, Eq)]
pub struct Sides {
    pub width: u32,
    pub height: u32,
}

/// A list of a width and a height. A list of another length is refused before its entries are examined.
pub struct SidesForm;

type SideForm = RangeForm<1, { u32::MAX }>;

impl Reader for SidesForm {
    type Out = Sides;

    ghost reads = { sides_at };

    ghost Fits = { FitsSides };

    fn read(alloc: Global, at: &Location<'_>, value: &Value) -> Result<Sides, ReadError> {
        match value {
            Value::Array(entries) => two_sides(alloc, at, entries.as_slice()),
            _ => Err(at.refused(alloc)),
        }
    }
}

fn two_sides(alloc: Global, at: &Location<'_>, entries: &[Value]) -> Result<Sides, ReadError>
    ensures gives { Gives result (two_at (legs at.now) (items_view entries.now)) }
    ensures fits { IfOk result FitsSides }
{
    match entries {
        [] => Err(at.refused(alloc)),
        [_] => Err(at.refused(alloc)),
        [first, second] => {
            let width = SideForm::read(alloc, &(&*at).entry(0), first)?;
            let height = SideForm::read(alloc, &(&*at).entry(1), second)?;
            Ok(Sides { width, height })
        }
        [_, _, _, ..] => Err(at.refused(alloc)),
    }
}
