//! Reading and writing JSON by cases: what the two file formats share.
//!
//! A *form* is an empty type that says how values of another type stand in a file. A reader of an object takes its
//! members in the order of examination, one line each, and answers the value or the path of the first fault.
#![tactic(auto)]

mod json;
mod list;
mod location;
mod members;
mod number;
mod read_error;
mod reader;
mod text;
mod typed;
mod writer;
mod written;

pub use json::{JsonError, read_json, write_json};
pub use list::ListForm;
pub use location::Location;
pub use members::{object, optional, others, required};
pub use number::{NumberForm, RangeForm};
pub use read_error::ReadError;
pub use reader::Reader;
pub use text::{NameForm, NameWord, TextForm, Word};
pub use typed::Typed;
pub use writer::Writer;
pub use written::{Members, with_form, with_member, with_text};
