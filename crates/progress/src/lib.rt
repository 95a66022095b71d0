//! How far a command is, in one line of standard error that is written again and again and wiped at the end.
#![tactic(auto)]

mod gate;
mod meter;
mod reader;
mod sink;

pub use gate::MeterGate;
pub use meter::Meter;
pub use reader::MeterReader;
pub use sink::MeterSink;
