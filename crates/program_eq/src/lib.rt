//! Whether two programs, or two parts of them, are the same.
#![tactic(auto)]

mod op;
mod parts;
mod same;
mod whole_program;

pub use same::{Same, same_all};
