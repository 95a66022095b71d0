//! Law of `flight`: frames that are compiled together as one mean what they mean one after another.
#![tactic(auto)]

mod by_name;
mod laws;

pub use by_name::named_laws;
pub use laws::window_laws;
