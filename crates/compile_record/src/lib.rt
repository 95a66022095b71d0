//! The submissions of a frame: from its kept passes to memories, pieces, and what each queue waits for, does and signals. Its
//! laws: `law_valid`, `law_sound`, `law_meaning`.
#![tactic(auto)]

mod block;
mod compiled;
mod items;
mod laws;
mod mark;
mod needs;
mod pieces;
mod recording;
mod resource;
mod script;
mod steps;
mod table;
mod used;
mod whole_program;

pub use compiled::Compiled;
pub use laws::script_laws;
pub use mark::{Mark, Marked};
pub use recording::record;
