//! What a command that needs no device answers to the bytes of a file.
#![tactic(auto)]

mod answer;
mod auto;
mod bound;
mod bytes;
mod compiling;
mod cull;
mod files;
mod form;
mod frames;
mod generating;
mod groups;
mod meaning;
mod migrate;
mod place;
mod programs;
mod status;

pub use answer::{Answer, done, program_refusal, refusal};
pub use bytes::{answer_bytes, answer_to};
pub use files::{File, file_of, limit_of, over_input};
pub use form::form_of;
pub use programs::checked;
pub use status::{AnswerStatus, Status};
