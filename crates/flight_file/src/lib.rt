//! Several frames fly: windows of them are compiled and run on devices, one after another.
#![tactic(auto)]

mod file;
mod flying;
mod frames;
mod lines;
mod outcome;
mod persisted;
mod plan;
mod print;
mod refusal;

pub use file::fly_file;
pub use outcome::Outcome;
pub use plan::FlightPlan;
pub use refusal::{Refusal, refusal_text};
