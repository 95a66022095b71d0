//! The texts that the program prints.
#![tactic(auto)]

mod audit;
mod bound;
mod cost;
mod export;
mod fault;
mod flight;
mod hazard;
mod kept;
mod key;
mod path;
mod place;
mod readback;
mod summary;
mod trace;
mod unit;

pub use audit::{AuditLine, audit_text};
pub use bound::bound_text;
pub use cost::cost_text;
pub use export::export_text;
pub use fault::{frame_fault_text, program_fault_text};
pub use flight::{FlightLine, flight_text};
pub use hazard::{check_text, hazard_text};
pub use kept::{cull_text, run_text};
pub use place::{place_text, sum_of_sizes};
pub use readback::readback_text;
pub use summary::summary_text;
pub use trace::trace_text;
