//! A program as it is checked: what each node does to memory, and in which pieces.
#![tactic(auto)]

mod access;
mod barrier;
mod command;
mod effect;
mod effects;
mod laws;
mod node_access;
mod overlaps;
mod view;

pub use access::{Access, AccessKind, Agent, Handover};
pub use effect::{Effect, Scope};
pub use laws::view_law;
pub use node_access::{NodeAccess, node_accesses_of};
pub use view::{View, view_of};
