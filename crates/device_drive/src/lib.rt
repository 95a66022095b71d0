//! A device is driven to its end on one thread.
#![tactic(auto)]

mod keeper;
mod laws;
mod moves;
mod round;
mod run;
mod sizes;
mod tending;

pub use laws::drive_law;
pub use moves::{has_move, make_move};
pub use round::{next_node, readback_of};
pub use run::drive;
pub use sizes::{size_of, sizes_of};
pub use tending::tended;
