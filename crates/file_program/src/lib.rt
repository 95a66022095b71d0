//! Submission files: the program that bytes are, or the first fault.
#![tactic(auto)]

mod barrier_masks;
mod batch;
mod command;
mod entry;
mod file;
mod item;
mod item_kind;
mod layout;
mod mask;
mod memory;
mod piece;
mod queue;
mod signal;
mod text;
mod transfer;
mod typed;
mod value;
mod wait;
mod whole_program;

pub use file::{ProgramReadError, read_program};
pub use text::write_program;
