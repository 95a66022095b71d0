//! The first points that are reached, as a table: in which column, on which queue.
#![tactic(auto)]

mod asked;
mod point;
mod rows;
mod table;
mod walk;
mod word;

pub use point::Point;
pub use table::{Firsts, firsts_of};
pub use word::with;
