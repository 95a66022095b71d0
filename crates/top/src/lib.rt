//! The top call: from words and the bytes of a file to a status and the bytes of a text.
#![tactic(auto)]

mod audit;
mod devices;
mod ended;
mod exec;
mod files;
mod flights;
mod input;
mod intake;
mod opener;
mod output;
mod readbacks;
mod reply;
mod rest;
mod run;
mod summary;
mod telling;
mod top;
mod totals;
mod workers;

pub use answer::Status;
pub use device_run::{Keep, KeepNone, RanDevice};
pub use ended::Ended;
pub use files::framec_files;
pub use opener::Opener;
pub use reply::Reply;
pub use rest::at_rest;
pub use top::framec;
pub use workers::without_workers;
