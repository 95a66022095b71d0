//! What stands round the groups of a unit: barriers, transfers of ownership, and barriers on bytes that units share. Its laws:
//! `law_plan`; `accesses_law` and `states_law` of `law_sound`.
#![tactic(auto)]

mod first;
mod joint;
mod masks;
mod member;
mod next;
mod of_groups;
mod prologue;
mod under;

pub use of_groups::prologues;
pub use prologue::{Prologue, PrologueKind};
