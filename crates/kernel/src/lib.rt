//! What operations leave in the bytes of their destination. Kernels work on bands of rows; rectangles are drawn into an image.
#![tactic(auto)]

mod anew;
mod apply_op;
mod attachment;
mod blur;
mod byte_blur;
mod clear;
mod columns;
mod combine;
mod constants;
mod convert;
mod copies;
mod fill;
mod function;
mod halve;
mod histogram;
mod map;
mod mix;
mod painting;
mod ramp;
mod repainting;
mod select;
mod shapes;
mod texels;
mod transfers;
mod whole;

pub use anew::whole_leaves_nothing_old;
pub use apply_op::apply;
pub use attachment::draw;
pub use blur::box3_rows;
pub use clear::clear_rows;
pub use combine::combine_rows;
pub use convert::convert_rows;
pub use copies::{copy_area, copy_range};
pub use fill::fill_words;
pub use function::{cut, fun_at};
pub use halve::halve_rows;
pub use histogram::count_texels;
pub use map::map_rows;
pub use painting::{paint, paint_framed};
pub use ramp::ramp_rows;
pub use repainting::{Area, repaint};
pub use select::select_rows;
pub use shapes::canvas;
pub use texels::{get, pick, put};
