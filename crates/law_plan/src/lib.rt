//! Law of `compile_barriers` and `compile_record`, told of any plan of groups: facts of single groups, commands and barriers
//! make a program sound.
#![tactic(auto)]

mod laws;

pub use laws::{crossing_laws, leveled_laws};
