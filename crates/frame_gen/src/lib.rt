//! Large frames from a number.
#![tactic(auto)]

mod exports;
mod generated_frame;
mod names;
mod operations;
mod passes;
mod resources;

pub use generated_frame::generate;
