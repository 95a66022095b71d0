//! Each kernel over all rows, band by band.

ghost use Rattle.std.specs.Prelude.{◌≡◌, ℕ, ◌+◌, ◌*◌, ◌%◌, ◌≤◌, true, [], length};
ghost use Rattle.base.specs.Applied.{effect};
ghost use Rattle.base.specs.Fits.{fits};
ghost use Rattle.base.specs.Kernels.{box3, halved};
ghost use Rattle.base.specs.Shapes.{bytes_of};
ghost use Rattle.base.specs.Texels.{modulus, picture, band};
ghost use Rattle.kernel.specs.Bands.{HasRows};
ghost use Rattle.kernel.specs.Pictures.{all_combined, all_selected};

use crate::bands::{paint_bands, paint_rows};
use crate::combine::combine_rows;
use crate::fill::fill_words;
use crate::map::map_rows;
use crate::ramp::ramp_rows;
use crate::select::select_rows;
use crate::target::Target;
use base::{Fun, Op, Shape};
use bytes::BytesMut;
use kernel::{box3_rows, canvas, convert_rows, halve_rows};
use std::thread::Threads;

#[tactic(auto, using(kernel::proofs::Fitting::fill_fits))]
pub(crate) fn fill_buffer(to: Shape, offset: u32, size: u32, word: u32, out: Target) -> BytesMut
    requires fits { fits (Op.FillBuffer to offset size word) ≡ true }
    requires out { length out ≡ bytes_of to }
    ensures bytes { result.items ≡ effect (Op.FillBuffer to offset size word) [] [] [] out }
    ensures long { length result.items ≡ length out }
{
    let mut bytes = out.into_bytes();
    fill_words(offset, size, word, bytes.as_mut_slice());
    bytes
}

#[tactic(auto, using(kernel::proofs::Fitting::grid_bytes))]
pub(crate) fn ramp<R: Threads + Sync>(
    rt: &R,
    helpers: usize,
    to: Shape,
    base: u32,
    dx: u32,
    dy: u32,
    out: Target,
) -> BytesMut
    requires fits { fits (Op.Ramp to base dx dy) ≡ true }
    requires out { length out ≡ bytes_of to }
    ensures bytes { result.items ≡ effect (Op.Ramp to base dx dy) [] [] [] out }
    ensures long { length result.items ≡ length out }
{
    let grid = canvas(to);
    paint_rows(
        rt,
        helpers,
        grid.texel,
        grid.width,
        grid.height,
        out,
        |first: u32, count: u32, rows: &mut [u8]|
            requires { HasRows grid count rows.old × (first + count ≤ grid.height) }
            ensures { rows.new ≡ band grid.texel grid.width first count (λ x y. base + x * dx + y * dy) }
        { ramp_rows(grid, base, dx, dy, first, count, rows) },
    )
}

#[tactic(auto, using(kernel::proofs::Fitting::same_bytes, kernel::proofs::Fitting::same_bytes_to))]
pub(crate) fn map<R: Threads + Sync>(
    rt: &R,
    helpers: usize,
    from: Shape,
    to: Shape,
    fun: Fun,
    value: u32,
    src: &[u8],
    out: Target,
) -> BytesMut
    requires fits { fits (Op.Map from to fun value) ≡ true }
    requires src { length src.now ≡ bytes_of from }
    requires out { length out ≡ bytes_of to }
    ensures bytes { result.items ≡ effect (Op.Map from to fun value) src.now [] [] out }
    ensures long { length result.items ≡ length out }
{
    let grid = canvas(to);
    paint_rows(
        rt,
        helpers,
        grid.texel,
        grid.width,
        grid.height,
        out,
        |first: u32, count: u32, rows: &mut [u8]|
            requires { HasRows grid grid.height src.now × HasRows grid count rows.old × (first + count ≤ grid.height) }
            ensures { rows.new ≡ band grid.texel grid.width first count (all_combined grid.texel fun (picture grid src.entry.now) (λ x y. value % modulus grid.texel)) }
        { map_rows(grid, fun, value, src, first, count, rows) },
    )
}

#[tactic(auto, using(kernel::proofs::Fitting::two_first, kernel::proofs::Fitting::two_second, kernel::proofs::Fitting::two_to))]
pub(crate) fn combine<R: Threads + Sync>(
    rt: &R,
    helpers: usize,
    from: (Shape, Shape),
    to: Shape,
    fun: Fun,
    a: &[u8],
    b: &[u8],
    out: Target,
) -> BytesMut
    requires fits { fits (Op.Combine from.0 from.1 to fun) ≡ true }
    requires a { length a.now ≡ bytes_of from.0 }
    requires b { length b.now ≡ bytes_of from.1 }
    requires out { length out ≡ bytes_of to }
    ensures bytes { result.items ≡ effect (Op.Combine from.0 from.1 to fun) a.now b.now [] out }
    ensures long { length result.items ≡ length out }
{
    let grid = canvas(to);
    paint_rows(
        rt,
        helpers,
        grid.texel,
        grid.width,
        grid.height,
        out,
        |first: u32, count: u32, rows: &mut [u8]|
            requires { HasRows grid grid.height a.now × HasRows grid grid.height b.now × HasRows grid count rows.old × (first + count ≤ grid.height) }
            ensures { rows.new ≡ band grid.texel grid.width first count (all_combined grid.texel fun (picture grid a.entry.now) (picture grid b.entry.now)) }
        { combine_rows(grid, fun, a, b, first, count, rows) },
    )
}

#[tactic(auto, using(kernel::proofs::Fitting::three_pair, kernel::proofs::Fitting::two_first, kernel::proofs::Fitting::two_second, kernel::proofs::Fitting::three_third, kernel::proofs::Fitting::three_to))]
pub(crate) fn select<R: Threads + Sync>(
    rt: &R,
    helpers: usize,
    from: (Shape, Shape, Shape),
    to: Shape,
    mask: &[u8],
    a: &[u8],
    b: &[u8],
    out: Target,
) -> BytesMut
    requires fits { fits (Op.Select from.0 from.1 from.2 to) ≡ true }
    requires mask { length mask.now ≡ bytes_of from.0 }
    requires a { length a.now ≡ bytes_of from.1 }
    requires b { length b.now ≡ bytes_of from.2 }
    requires out { length out ≡ bytes_of to }
    ensures bytes { result.items ≡ effect (Op.Select from.0 from.1 from.2 to) mask.now a.now b.now out }
    ensures long { length result.items ≡ length out }
{
    let grid = canvas(to);
    paint_rows(
        rt,
        helpers,
        grid.texel,
        grid.width,
        grid.height,
        out,
        |first: u32, count: u32, rows: &mut [u8]|
            requires { HasRows grid grid.height mask.now × HasRows grid grid.height a.now × HasRows grid grid.height b.now × HasRows grid count rows.old × (first + count ≤ grid.height) }
            ensures { rows.new ≡ band grid.texel grid.width first count (all_selected (picture grid mask.entry.now) (picture grid a.entry.now) (picture grid b.entry.now)) }
        { select_rows(grid, mask, a, b, first, count, rows) },
    )
}

#[tactic(auto, using(kernel::proofs::Fitting::one_size))]
pub(crate) fn convert<R: Threads + Sync>(
    rt: &R,
    helpers: usize,
    from: Shape,
    to: Shape,
    src: &[u8],
    out: Target,
) -> BytesMut
    requires fits { fits (Op.Convert from to) ≡ true }
    requires src { length src.now ≡ bytes_of from }
    requires out { length out ≡ bytes_of to }
    ensures bytes { result.items ≡ effect (Op.Convert from to) src.now [] [] out }
    ensures long { length result.items ≡ length out }
{
    let grid = canvas(from);
    let texel = canvas(to).texel;
    paint_bands(
        rt,
        helpers,
        texel,
        grid.width,
        grid.height,
        out,
        |first: u32, count: u32, rows: &mut [u8]|
            requires { HasRows grid grid.height src.now × HasRows (record grid { texel = texel }) count rows.old × (first + count ≤ grid.height) }
            ensures { rows.new ≡ band texel grid.width first count (picture grid src.entry.now) }
        { convert_rows(grid, texel, src, first, count, rows) },
    )
}

#[tactic(auto, using(kernel::proofs::Fitting::images_from, kernel::proofs::Fitting::images_to))]
pub(crate) fn box3<R: Threads + Sync>(
    rt: &R,
    helpers: usize,
    from: Shape,
    to: Shape,
    src: &[u8],
    out: Target,
) -> BytesMut
    requires fits { fits (Op.Box3 from to) ≡ true }
    requires src { length src.now ≡ bytes_of from }
    requires out { length out ≡ bytes_of to }
    ensures bytes { result.items ≡ effect (Op.Box3 from to) src.now [] [] out }
    ensures long { length result.items ≡ length out }
{
    let grid = canvas(to);
    paint_bands(
        rt,
        helpers,
        grid.texel,
        grid.width,
        grid.height,
        out,
        |first: u32, count: u32, rows: &mut [u8]|
            requires { HasRows grid grid.height src.now × HasRows grid count rows.old × (first + count ≤ grid.height) }
            ensures { rows.new ≡ band grid.texel grid.width first count (box3 grid.width grid.height (picture grid src.entry.now)) }
        { box3_rows(grid, src, first, count, rows) },
    )
}

#[tactic(auto, using(kernel::proofs::Fitting::twice))]
pub(crate) fn halve<R: Threads + Sync>(
    rt: &R,
    helpers: usize,
    from: Shape,
    to: Shape,
    src: &[u8],
    out: Target,
) -> BytesMut
    requires fits { fits (Op.Halve from to) ≡ true }
    requires src { length src.now ≡ bytes_of from }
    requires out { length out ≡ bytes_of to }
    ensures bytes { result.items ≡ effect (Op.Halve from to) src.now [] [] out }
    ensures long { length result.items ≡ length out }
{
    let (grid, half) = (canvas(from), canvas(to));
    paint_bands(
        rt,
        helpers,
        half.texel,
        half.width,
        half.height,
        out,
        |first: u32, count: u32, rows: &mut [u8]|
            requires { (grid.width ≡ 2 * half.width) × (grid.height ≡ 2 * half.height) × HasRows grid grid.height src.now × HasRows half count rows.old × (first + count ≤ half.height) }
            ensures { rows.new ≡ band half.texel half.width first count (halved (picture grid src.entry.now)) }
        { halve_rows(grid, half, src, first, count, rows) },
    )
}
