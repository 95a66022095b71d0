//! Printed lines: exact bytes at the end of a text.
#![tactic(auto)]

mod cut;
mod digits;
mod lines;

pub use cut::cut_back;
pub use lines::Lines;
