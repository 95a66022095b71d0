//! Frames in flight: several frames in one, with bytes that persist from one to the next. Its laws: `law_window`, and
//! `flight_laws`, its own.
#![tactic(auto)]

mod begun;
mod exports;
mod fault;
mod holders;
mod joins;
mod laws;
mod limits;
mod names;
mod passes;
mod reading;
mod refusals;
mod resources;
mod spots;
mod window;
mod windows;

pub use fault::{FlightError, FlightFault};
pub use laws::flight_laws;
pub use windows::{Windows, windows_of};
