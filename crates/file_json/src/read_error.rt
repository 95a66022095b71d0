//! How reading ends without a value.

ghost use Rattle.std.specs.Prelude.{◌≡◌};
ghost use Rattle.file_json.specs.declared.read_error.ReadError.TheVariants as ends;

use base::{NoMemory, Path};
use thiserror::Error;

/// Why a value was not read.
#[derive(Debug, Drop, Error)]
pub enum ReadError {
    /// Memory ran out, or a list has more entries than a path can name: a position is at most 2^32 - 1.
    #[error("memory ran out")]
    NoMemory,
    /// The first fault is at this path.
    #[error("a value has not the form that its file asks for")]
    Refused(Path),
}

impl From<NoMemory> for ReadError {
    ghost from_gives = { λ _ e. e ≡ ends.NoMemory };

    fn from(_e: NoMemory) -> Self {
        ReadError::NoMemory
    }
}
