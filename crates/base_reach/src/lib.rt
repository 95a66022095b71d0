//! Which numbers are reached from which, where every step goes to a greater number.
#![tactic(auto)]

mod bits;
mod close;
mod rows;

pub use rows::Rows;
