//! What commands share: the valid frame of a file, and what it is compiled to. Its laws: that of `compile`, and of `--tight`
//! `law_tight`.
#![tactic(auto)]

mod compiling;
mod files;

pub use compiling::compiled;
pub use files::{valid_frame, valid_program};
