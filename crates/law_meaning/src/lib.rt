//! Law of `compile`: what is compiled of a frame leaves, in every order of its nodes, the bytes that the frame means.
#![tactic(auto)]

mod in_order;
mod laws;

pub use in_order::declared_laws;
pub use laws::meaning_laws;
