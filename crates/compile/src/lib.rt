//! From a frame to a program of submissions that is sound and does what the frame means. Its law: `compile_law`, which joins
//! `law_valid`, `law_sound` and `law_meaning`.
#![tactic(auto)]

mod compiling;
mod laws;

pub use compiling::compile;
pub use laws::compile_law;
