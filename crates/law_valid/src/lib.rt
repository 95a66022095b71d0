//! Law of `compile_record`: what is recorded of a valid frame breaks no rule of programs, and goes over no limit.
#![tactic(auto)]

mod laws;

pub use laws::faultless_law;
