//! Frame files: the frame that bytes are, or the first fault.
#![tactic(auto)]

mod file;
mod flag;
mod pass;
mod queue;
mod resource;
mod resource_members;
mod spot;
mod text;
mod typed;
mod whole_frame;
mod write;

pub use file::{FrameReadError, read_frame};
pub use text::write_frame;
