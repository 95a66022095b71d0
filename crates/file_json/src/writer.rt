//! How a value is written.

ghost use Rattle.std.specs.Prelude.{◌≡◌, IfOk};
ghost use Rattle.serde_json.specs.Data.{Data};
ghost use Rattle.serde_json.specs.View.{view};

use serde_json::Value;
use std::alloc::{AllocError, Global};

/// The writing side of a form.
pub trait Writer {
    type In;

    /// The JSON value that a value is written as.
    ghost writes: { Self.In → Data };

    fn write(alloc: Global, value: &Self::In) -> Result<Value, AllocError>
        ensures { IfOk result (λ json. view json ≡ writes value.now) };
}
