//! What is ordered before what in a program, and the order in which its nodes are taken.
#![tactic(auto)]

mod drain;
mod edges;
mod kind;
mod laws;
mod node;
mod signals;

pub use drain::{Drain, drain_of};
pub use edges::{Edges, direct};
pub use kind::Kind;
pub use laws::before_laws;
pub use node::Node;
