//! Workers of queues, and a tender beside them, on one device under a lock.
#![tactic(auto)]

mod held;
mod hold;
mod run;
mod step;
mod tending;
mod worker;

pub use hold::{Alone, Holder, Mover};
pub use run::run_workers;
pub use step::{WorkerStep, take_step};
pub use tending::{moves_of, tend_once, tend_through};
pub use worker::work_through;
