//! Programs: what is submitted to queues, and what can be wrong with it.
#![tactic(auto)]

mod barriers;
mod entry;
mod fault;
mod laws;
mod limits;
mod location;
mod nodes;
mod numbers;
mod path;
mod program;
mod range;
mod rule;
mod valid;
mod walk;

pub use base::{Limit, Path};
pub use entry::Entry;
pub use fault::ProgramFault;
pub use laws::rule_laws;
pub use program::{Batch, Item, Memory, Piece, Program, Queue, Signal, Transfer, WaitFor};
pub use valid::{ProgramError, ValidProgram, validate_program};
pub use vk::{Layout, Layouts, Masks};
