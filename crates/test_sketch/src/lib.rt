//! Frames and programs for tests, each sketched by a line of words. No crate of the product stands on it but for its tests.
#![tactic(auto)]

mod frame_words;
mod op;
mod program_words;
mod words;

pub use frame_words::sketched_frame;
pub use program_words::sketched_program;
pub use words::SketchError;
