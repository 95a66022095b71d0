//! Which transient resources are used one after another, so that they may lie in the same bytes. Its law: `aliases_law` of
//! `law_sound`: units that share bytes are ordered.
#![tactic(auto)]

mod lifetime;
mod order;
mod reach;

pub use order::ordered;
