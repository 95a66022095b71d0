//! How a value is read.

ghost use Rattle.std.specs.Prelude.{List, IfOk};
ghost use Rattle.base.specs.declared.path.Leg.{Leg};
ghost use Rattle.file_json.specs.Locations.{legs};
ghost use Rattle.file_json.specs.Reading.{Reading, Gives};
ghost use Rattle.serde_json.specs.Data.{Data};
ghost use Rattle.serde_json.specs.View.{view};

use crate::{Location, ReadError};
use serde_json::Value;
use std::alloc::Global;

/// The reading side of a form.
pub trait Reader {
    type Out: Drop;

    /// The value that a JSON value is, or the path of its first fault.
    ghost reads: { List Leg → Data → Reading Self.Out };

    /// What the format says of a value, whichever file it comes from.
    ghost Fits: { Self.Out → Type 0 };

    fn read(alloc: Global, at: &Location<'_>, value: &Value) -> Result<Self::Out, ReadError>
        ensures gives { Gives result (reads (legs at.now) (view value.now)) }
        ensures fits { IfOk result Fits };
}
