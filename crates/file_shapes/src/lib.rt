//! What frames and programs have alike in their files, beside operations: the families of queues, shapes with their
//! layers, who owns a resource, and bytes in hexadecimal.
#![tactic(auto)]

mod body;
mod family;
mod hexadecimal;
mod sharing;
mod sides;
mod texel;

pub use body::{Body, read_body};
pub use family::FamilyWord;
pub use hexadecimal::HexForm;
pub use sharing::{SharingWord, read_sharing};
pub use sides::{Sides, SidesForm};
pub use texel::TexelWord;
