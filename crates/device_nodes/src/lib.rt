//! What a running device knows of its nodes, pieces and timelines: which nodes may go on, and what each event changes.
#![tactic(auto)]

mod blocked;
mod control;
mod fresh;
mod going;
mod lasts;
mod marks;
mod needs;
mod pieces;
mod running;
mod spans;
mod timeline;
mod undefined;

pub use control::Control;
