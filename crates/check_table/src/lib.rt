//! A table that answers the order of accesses by comparisons, of nodes that may be recorded together.
#![tactic(auto)]

mod asked;
mod channel;
mod channels;
mod join;
mod laws;
mod laying;
mod of_program;
mod point;
mod queues;
mod table;
mod words;

pub use channel::{Channel, Way};
pub use join::{Join, Role};
pub use laws::table_laws;
pub use laying::Seat;
pub use of_program::program_table;
pub use table::{OrderTable, table_of};
