//! Versions of units, and the passes that nothing needs.
#![tactic(auto)]

mod counts;
mod culling;
mod kept;
mod makers;
mod versions;

pub use culling::cull;
pub use kept::Kept;
pub use versions::{Versions, versions_of};
