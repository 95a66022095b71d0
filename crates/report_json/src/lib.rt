//! What the program answers in either form: as the lines of `report`, or as JSON, one object and a line feed.
#![tactic(auto)]

mod bound;
mod cost;
mod cull;
mod fault;
mod hazard;
mod object;
mod path;
mod place;
mod told;
mod unit;

pub use object::{add_comma, add_text, end_object, first_member, next_member, next_number};
pub use told::{
    bound_told, check_told, cost_told, cull_told, frame_fault_told, hazard_told, place_told,
    program_fault_told,
};
