//! Two views in which the same is before the same, and passes on the same, are sound alike.
#![tactic(auto)]

mod laws;

pub use laws::alike_laws;
