//! A recorded run is judged.
#![tactic(auto)]

mod enabled;
mod follower;
mod following;
mod judging;
mod law;
mod making;
mod numbers;
mod places;
mod recording;
mod trace;
mod trace_lines;
mod undone;
mod verdict;

pub use judging::audit;
pub use law::{run_law, trace_law};
pub use recording::{Recording, recording_in};
pub use trace::{TraceError, read_trace};
pub use verdict::Verdict;
