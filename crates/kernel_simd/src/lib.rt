//! What operations leave in the bytes of their destination, by vector lanes and by bands of rows in threads of their own.
#![tactic(auto)]

mod apply_op;
mod bands;
mod block;
mod byte_lanes;
mod combine;
mod constants;
mod draw;
mod fill;
mod laying;
mod map;
mod ramp;
mod rows;
mod select;
mod strips;
mod target;
mod whole;
mod word_lanes;

pub use apply_op::apply_fast;
pub use bands::helpers_for;
pub use target::Target;
