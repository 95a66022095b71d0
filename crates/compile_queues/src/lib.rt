//! A choice of queues: passes move to where that makes the longest chain of work shorter. Its law: `auto_laws`, its own: no
//! byte changes.
#![tactic(auto)]

mod best;
mod choice;
mod cost;
mod joins;
mod laws;
mod owners;
mod queues;
mod spans;
mod sums;
mod work;

pub use choice::{Choice, choose};
pub use laws::auto_laws;
