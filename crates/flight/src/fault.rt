//! Why frames do not fly together.

ghost use Rattle.std.specs.Prelude.{◌≡◌};
ghost use Rattle.flight.specs.declared.fault.FlightError.TheVariants as ends;

use base::{Limit, Name, NoMemory};
use thiserror::Error;

/// The first reason for which frames are not compiled together.
#[derive(Clone, Copy, Debug)]
pub enum FlightFault {
    /// The frame has other queues than the first one: another name, family or order.
    Queues { frame: u32 },
    /// The frame has the name for what is no import, or for one of another size than in the first frame that has it.
    Persist { frame: u32, name: Name },
    /// The window is more than a frame may be.
    Window { window: u32, limit: Limit },
}

/// Why there are no windows.
#[derive(Clone, Copy, Debug, Error)]
pub enum FlightError {
    #[error("the frames cannot fly together")]
    Refused(FlightFault),
    #[error("memory ran out")]
    NoMemory,
}

impl From<NoMemory> for FlightError {
    ghost from_gives = { λ _ e. e ≡ ends.NoMemory };

    fn from(_: NoMemory) -> FlightError {
        FlightError::NoMemory
    }
}
