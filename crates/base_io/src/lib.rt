//! What the program reads from, writes to and tells, over memory and over std; and taps that are told a history.
#![tactic(auto)]

mod count_tap;
mod gate;
mod list_tap;
mod memory_sink;
mod memory_source;
mod read_source;
mod serve;
mod sink;
mod source;
mod steady_sink;
mod steady_source;
mod tap;
mod write_sink;

pub use count_tap::CountTap;
pub use gate::{Gate, IdleGate};
pub use list_tap::ListTap;
pub use memory_sink::MemorySink;
pub use memory_source::MemorySource;
pub use read_source::ReadSource;
pub use serve::serve_all;
pub use sink::{Put, Sink};
pub use source::{ReadResult, Source};
pub use steady_sink::SteadySink;
pub use steady_source::SteadySource;
pub use tap::{Tap, Tell};
pub use write_sink::WriteSink;
