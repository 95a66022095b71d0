//! What is left to compute where images are cleared: an operation over them is one over single numbers, and a draw
//! that leaves one number everywhere is a clear.
#![tactic(auto)]

mod image;
mod simpler;
mod word;

pub use image::cleared;
pub use simpler::{Simpler, simplified};
