//! How many bytes no heap is smaller than in which transient resources share memory, with resources that show it. Its law: its
//! own clause `holds`, over every legal placement.
#![tactic(auto)]

mod bound;
mod choices;
mod lows;
mod order;

pub use bound::{Bound, bound_of};
