//! Law of `compile_record`: what is recorded of the kept passes of a valid frame is sound.
#![tactic(auto)]

mod accesses;
mod bytes;
mod laws;
mod sound;
mod starts;
mod states;

pub use accesses::accesses_law;
pub use bytes::bytes_law;
pub use laws::{aliases_law, places_law, sound_law};
pub use sound::sound_program_law;
pub use starts::starts_law;
pub use states::states_law;
