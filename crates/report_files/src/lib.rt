//! What is printed of several files, from what is printed of each.
#![tactic(auto)]

mod file_report;
mod object;
mod text;

pub use file_report::FileReport;
pub use text::files_text;
