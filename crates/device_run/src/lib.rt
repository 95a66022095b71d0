//! What a frame is compiled to runs on a device, which the host then reads.
#![tactic(auto)]

mod keeper;
mod laws;
mod programs;
mod ran;
mod readbacks;
mod run;

pub use keeper::{Keep, KeepNone};
pub use laws::own_run_law;
pub use programs::{chosen, run_program};
pub use ran::RanDevice;
pub use readbacks::bytes_of;
pub use run::run_good;
