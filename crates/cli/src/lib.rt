//! The command line: which command words are, and which files it reads.
#![tactic(auto)]

mod command;
mod file_name;
mod files;
mod form;
mod line;
mod line_options;
mod matching;
mod number;
mod option_name;
mod options;
mod persist;
mod word;

pub use command::{Command, FrameCommand, SubmissionCommand};
pub use file_name::FileName;
pub use form::Form;
pub use line::{Line, line_of};
