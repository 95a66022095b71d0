//! Scopes of masks change nothing in the programs that files of today can have.
#![tactic(auto)]

mod laws;

pub use laws::narrow_laws;
