//! Law of `check_tighten`: what a program reads back does not depend on which waits keep it sound.
#![tactic(auto)]

mod laws;

pub use laws::wait_laws;
