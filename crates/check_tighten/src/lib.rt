//! Programs whose waits are as few, and hold back as little, as soundness allows. Its law: `law_tight`.
#![tactic(auto)]

mod edit;
mod laws;
mod leaving;
mod own;
mod place;
mod rounds;
mod tightening;
mod trial;

pub use laws::tighten_law;
pub use tightening::tighten;
