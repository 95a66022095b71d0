//! Law of `device_model`: whatever single accesses come and whatever caches do, a sound program leaves what its commands leave
//! one after another.
#![tactic(auto)]

mod laws;

pub use laws::{device_run_laws, run_laws};
