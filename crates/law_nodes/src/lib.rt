//! The order of nodes, by edges from commands and to them too, as a law: where each command has one stage, the order of accesses
//! is the order of their nodes.
#![tactic(auto)]

mod laws;

pub use laws::node_laws;
