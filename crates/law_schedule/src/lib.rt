//! Law of `compile_timeline`: what holds of the nodes of every program whose queues are cut from a list of steps.
#![tactic(auto)]

mod laws;

pub use laws::cut_laws;
