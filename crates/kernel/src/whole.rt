//! Each kernel over all rows.

ghost use Rattle.std.specs.Prelude.{◌≡◌, true, [], length};
ghost use Rattle.base.specs.Applied.{effect};
ghost use Rattle.base.specs.Fits.{fits};
ghost use Rattle.base.specs.Shapes.{bytes_of};

use crate::blur::box3_rows;
use crate::clear::clear_rows;
use crate::combine::combine_rows;
use crate::convert::convert_rows;
use crate::halve::halve_rows;
use crate::histogram::count_texels;
use crate::map::map_rows;
use crate::ramp::ramp_rows;
use crate::select::select_rows;
use crate::shapes::canvas;
use base::{Fun, Op, Shape};

#[tactic(auto, using(crate::proofs::Fitting::image_bytes))]
pub(crate) fn clear(to: Shape, value: u32, out: &mut [u8])
    requires fits { fits (Op.ClearImage to value) ≡ true }
    requires out { length out.old ≡ bytes_of to }
    ensures { out.new ≡ effect (Op.ClearImage to value) [] [] [] out.old }
{
    let grid = canvas(to);
    clear_rows(grid, value, 0, grid.height, out);
}

#[tactic(auto, using(crate::proofs::Fitting::grid_bytes))]
pub(crate) fn ramp(to: Shape, base: u32, dx: u32, dy: u32, out: &mut [u8])
    requires fits { fits (Op.Ramp to base dx dy) ≡ true }
    requires out { length out.old ≡ bytes_of to }
    ensures { out.new ≡ effect (Op.Ramp to base dx dy) [] [] [] out.old }
{
    let grid = canvas(to);
    ramp_rows(grid, base, dx, dy, 0, grid.height, out);
}

#[tactic(auto, using(crate::proofs::Fitting::same_bytes, crate::proofs::Fitting::same_bytes_to))]
pub(crate) fn map(from: Shape, to: Shape, fun: Fun, value: u32, src: &[u8], out: &mut [u8])
    requires fits { fits (Op.Map from to fun value) ≡ true }
    requires src { length src.now ≡ bytes_of from }
    requires out { length out.old ≡ bytes_of to }
    ensures { out.new ≡ effect (Op.Map from to fun value) src.now [] [] out.old }
{
    let grid = canvas(to);
    map_rows(grid, fun, value, src, 0, grid.height, out);
}

#[tactic(auto, using(crate::proofs::Fitting::two_first, crate::proofs::Fitting::two_second, crate::proofs::Fitting::two_to))]
pub(crate) fn combine(from: (Shape, Shape), to: Shape, fun: Fun, a: &[u8], b: &[u8], out: &mut [u8])
    requires fits { fits (Op.Combine from.0 from.1 to fun) ≡ true }
    requires a { length a.now ≡ bytes_of from.0 }
    requires b { length b.now ≡ bytes_of from.1 }
    requires out { length out.old ≡ bytes_of to }
    ensures { out.new ≡ effect (Op.Combine from.0 from.1 to fun) a.now b.now [] out.old }
{
    let grid = canvas(to);
    combine_rows(grid, fun, a, b, 0, grid.height, out);
}

#[tactic(auto, using(crate::proofs::Fitting::three_pair, crate::proofs::Fitting::two_first, crate::proofs::Fitting::two_second, crate::proofs::Fitting::three_third, crate::proofs::Fitting::three_to))]
pub(crate) fn select(
    from: (Shape, Shape, Shape),
    to: Shape,
    mask: &[u8],
    a: &[u8],
    b: &[u8],
    out: &mut [u8],
)
    requires fits { fits (Op.Select from.0 from.1 from.2 to) ≡ true }
    requires mask { length mask.now ≡ bytes_of from.0 }
    requires a { length a.now ≡ bytes_of from.1 }
    requires b { length b.now ≡ bytes_of from.2 }
    requires out { length out.old ≡ bytes_of to }
    ensures { out.new ≡ effect (Op.Select from.0 from.1 from.2 to) mask.now a.now b.now out.old }
{
    let grid = canvas(to);
    select_rows(grid, mask, a, b, 0, grid.height, out);
}

#[tactic(auto, using(crate::proofs::Fitting::one_size))]
pub(crate) fn convert(from: Shape, to: Shape, src: &[u8], out: &mut [u8])
    requires fits { fits (Op.Convert from to) ≡ true }
    requires src { length src.now ≡ bytes_of from }
    requires out { length out.old ≡ bytes_of to }
    ensures { out.new ≡ effect (Op.Convert from to) src.now [] [] out.old }
{
    let grid = canvas(from);
    convert_rows(grid, canvas(to).texel, src, 0, grid.height, out);
}

#[tactic(auto, using(crate::proofs::Fitting::images_from, crate::proofs::Fitting::images_to))]
pub(crate) fn box3(from: Shape, to: Shape, src: &[u8], out: &mut [u8])
    requires fits { fits (Op.Box3 from to) ≡ true }
    requires src { length src.now ≡ bytes_of from }
    requires out { length out.old ≡ bytes_of to }
    ensures { out.new ≡ effect (Op.Box3 from to) src.now [] [] out.old }
{
    let grid = canvas(to);
    box3_rows(grid, src, 0, grid.height, out);
}

#[tactic(auto, using(crate::proofs::Fitting::twice))]
pub(crate) fn halve(from: Shape, to: Shape, src: &[u8], out: &mut [u8])
    requires fits { fits (Op.Halve from to) ≡ true }
    requires src { length src.now ≡ bytes_of from }
    requires out { length out.old ≡ bytes_of to }
    ensures { out.new ≡ effect (Op.Halve from to) src.now [] [] out.old }
{
    let (grid, half) = (canvas(from), canvas(to));
    halve_rows(grid, half, src, 0, half.height, out);
}

#[tactic(auto, using(crate::proofs::Fitting::histogram_to))]
pub(crate) fn histogram(from: Shape, to: Shape, src: &[u8], out: &mut [u8])
    requires fits { fits (Op.Histogram from to) ≡ true }
    requires src { length src.now ≡ bytes_of from }
    requires out { length out.old ≡ bytes_of to }
    ensures { out.new ≡ effect (Op.Histogram from to) src.now [] [] out.old }
{
    count_texels(src, out);
}
