//! Whether accesses that touch the same memory are in order, and changes are passed on.
#![tactic(auto)]

mod chain;
mod first;
mod listing;
mod pair;
mod sync_hazard;

pub use first::first_flaw;
pub use sync_hazard::{Flaw, SyncHazard};
