//! Operations in files, over any form of operand.
//!
//! An operation stands as an object with its word under `op` and the members of its kind. `OpForm<F>` is the form of
//! such an object; where it has further members beside them, `parts` and `members` read the operation in it.
#![tactic(auto)]

mod fun;
mod kind;
mod looking;
mod mix;
mod op;
mod reading;
mod rect;
mod writing;

pub use fun::{FunForm, FunWord};
pub use kind::{Kind, KindForm, KindWord, members, op_kind};
pub use mix::{MixForm, MixWord};
pub use op::OpForm;
pub use reading::parts;
pub use rect::RectForm;
