//! Whether a program comes to the same in every order that its nodes may run in, or what is wrong with it first.
#![tactic(auto)]

mod checked;
mod checking;
mod hazard;
mod judge;

pub use checked::Checked;
pub use checking::{CheckError, check, proved_sound, sound};
pub use hazard::Hazard;
