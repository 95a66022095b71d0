//! Where transient resources lie in one heap, so that those that are used one after another share memory. Its laws: its own
//! clauses `legal` and `least`; `places_law` and `aliases_law` of `law_sound`.
#![tactic(auto)]

mod falling;
mod least;
mod pairs;
mod placement;
mod rising;

pub use pairs::Pairs;
pub use placement::{Placement, place};
