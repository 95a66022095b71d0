//! A device with caches, on which a wrong submission goes wrong. Each call that changes it is one event, and its state is what
//! the events of its history make of the opening bytes.
#![tactic(auto)]

mod agents;
mod buffer;
mod comparing;
mod device;
mod helpers;
mod job;
mod nodes;
mod opening;
mod pending;
mod room;
mod running;
mod syncing;
mod weight;
mod work;

pub use device::Device;
pub use job::{Command, Finished, Job, Landed};
