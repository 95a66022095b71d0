//! A list of steps, cut into the batches of queues, with the waits and signals of timeline semaphores that the steps need. Its
//! law: `law_schedule`.
#![tactic(auto)]

mod laws;
mod needs;
mod queues;
mod script;
mod signals;
mod step;
mod submission;

pub use laws::timeline_laws;
pub use queues::batches;
pub use script::is_script;
pub use step::Step;
