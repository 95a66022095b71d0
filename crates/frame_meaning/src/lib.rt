//! The sequential meaning of a frame.
#![tactic(auto)]

mod bytes;
mod exports;
mod held;
mod ops;
mod pictures;
mod spare;
mod stored;
mod wanted;

pub use exports::{Exports, exports_of};
pub use pictures::{Pictures, meaning};
