//! The commands of a kept frame, what they use, and the groups of uses that need no order among themselves. Its law:
//! `group_laws`, its own, on which `law_sound` stands.
#![tactic(auto)]

mod buckets;
mod by_command;
mod by_unit;
mod command;
mod commands;
mod grouped;
mod grouping;
mod groups;
mod joining;
mod laws;
mod placed;
mod runs;
mod setting;
mod unit_use;
mod uses;

pub use command::Command;
pub use grouped::groups_of;
pub use grouping::Grouping;
pub use groups::Groups;
pub use joining::joins;
pub use laws::group_laws;
pub use unit_use::{Use, UseAt};
