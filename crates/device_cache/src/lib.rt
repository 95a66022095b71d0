//! Caches between agents and memory: the bytes of memories and the lines of agents before them, in segments, and the
//! random moves of such lines.
#![tactic(auto)]

mod cell;
mod change;
mod contents;
mod counts;
mod memory;
mod opening;
mod part;
mod row;
mod runs;
mod segment;
mod slots;
mod table;
mod tender;
mod words;

pub use contents::Contents;
pub use table::Segments;
pub use tender::{MOVES, Tender};
