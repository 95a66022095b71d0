//! Frames: what passes declare, and what can be wrong with a frame.
#![tactic(auto)]

mod fault;
mod frame;
mod laws;
mod limits;
mod location;
mod members;
mod numbered;
mod numbers;
mod path;
mod repeats;
mod rule;
mod table;
mod units;
mod unknowns;
mod uses;
mod valid;
mod written;

pub use base::{Limit, Path};
pub use fault::FrameFault;
pub use frame::{Frame, Pass, QueueDecl, Resource, Spot, Write};
pub use laws::frame_laws;
pub use numbered::NumberedPass;
pub use repeats::first_repeat;
pub use valid::{FrameError, ValidFrame, faultless, validate_frame};
pub use vk::Sharing;
