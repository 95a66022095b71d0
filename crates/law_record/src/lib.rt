//! Law of `compile_record`: what is recorded of a valid frame, by the relations between the frame and its program.
#![tactic(auto)]

mod laws;

pub use laws::recorded_laws;
