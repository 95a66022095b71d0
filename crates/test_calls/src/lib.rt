//! The top call, and calls of it over sources and sinks in memory, for tests of it. No crate of the product stands on it.
#![tactic(auto)]

mod answers;
mod call;
mod keeper;

pub use answers::{Answer, answer_from, answer_kept, answer_of, is_given};
pub use call::{command_of, status_of};
pub use keeper::KeepAll;
pub use top::{Ended, KeepNone, RanDevice, Status, at_rest, framec, without_workers};
