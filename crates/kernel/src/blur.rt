//! The mean of nine texels.

ghost use Rattle.std.specs.Prelude.{◌≡◌, ◌+◌, ◌/◌, ◌<◌, ◌≤◌};
ghost use Rattle.base.specs.Kernels.{three, box3};
ghost use Rattle.base.specs.Texels.{picture, band};
ghost use Rattle.kernel.specs.Bands.{HasRows};

use crate::byte_blur::{WIDEST, byte_rows};
use crate::columns::{after, column_sum};
use crate::constants::by_texel;
use crate::painting::paint_framed;
use base::{Grid, Texel};

// The mean of three columns, round row y. Its numbers have 32 bits, so that the compiler makes four means at once.
#[inline(always)]
#[tactic(auto, unfolding(base::specs::Kernels::three))]
fn mean_at(grid: Grid, src: &[u8], left: u32, x: u32, right: u32, y: u32) -> u32
    requires size { HasRows grid grid.height src.now }
    requires columns { (left < grid.width) × (x < grid.width) × (right < grid.width) }
    requires y { y < grid.height }
    ensures { result ≡ three grid.height (λ row. picture grid src.now left row + picture grid src.now x row + picture grid src.now right row) y / 9 }
{
    let left = column_sum(grid, src, left, y);
    let here = column_sum(grid, src, x, y);
    let right = column_sum(grid, src, right, y);
    let low = left.low.wrapping_add(here.low).wrapping_add(right.low);
    let shares = left.shares + here.shares + right.shares;
    // The sum is 64 * shares and the little that was rounded off. As 64 is 7 * 9 + 1, it is 9 * 7 * shares and a rest of
    // less than 2 ^ 30, which the low bits tell.
    let rest = low.wrapping_sub(shares.wrapping_mul(63));
    7 * shares + rest / 9
}

#[inline(always)]
fn inner_at(grid: Grid, src: &[u8], x: u32, y: u32) -> u32
    requires size { HasRows grid grid.height src.now }
    requires x { (1 ≤ x) × (x + 1 < grid.width) }
    requires y { y < grid.height }
    ensures { result ≡ box3 grid.width grid.height (picture grid src.now) x y }
{
    mean_at(grid, src, x - 1, x, x + 1, y)
}

#[inline(always)]
fn edge_at(grid: Grid, src: &[u8], x: u32, y: u32) -> u32
    requires size { HasRows grid grid.height src.now }
    requires x { x < grid.width }
    requires y { y < grid.height }
    ensures { result ≡ box3 grid.width grid.height (picture grid src.now) x y }
{
    mean_at(grid, src, x.saturating_sub(1), x, after(grid.width, x), y)
}

#[inline(always)]
fn means(grid: Grid, src: &[u8], first: u32, count: u32, out: &mut [u8])
    requires src { HasRows grid grid.height src.now }
    requires out { HasRows grid count out.old }
    requires rows { first + count ≤ grid.height }
    ensures { out.new ≡ band grid.texel grid.width first count (box3 grid.width grid.height (picture grid src.now)) }
{
    paint_framed(
        grid.texel,
        out,
        grid.width,
        first,
        count,
        |x: u32, y: u32| -> u32
            requires { HasRows grid grid.height src.now × (1 ≤ x) × (x + 1 < grid.width) × (y < grid.height) }
            ensures { result ≡ box3 grid.width grid.height (picture grid src.entry.now) x y }
        { inner_at(grid, src, x, y) },
        |x: u32, y: u32| -> u32
            requires { HasRows grid grid.height src.now × (x < grid.width) × (y < grid.height) }
            ensures { result ≡ box3 grid.width grid.height (picture grid src.entry.now) x y }
        { edge_at(grid, src, x, y) },
    );
}

/// Rows of `box3`, from row `first` on.
pub fn box3_rows(grid: Grid, src: &[u8], first: u32, count: u32, out: &mut [u8])
    requires src { HasRows grid grid.height src.now }
    requires out { HasRows grid count out.old }
    requires rows { first + count ≤ grid.height }
    ensures { out.new ≡ band grid.texel grid.width first count (box3 grid.width grid.height (picture grid src.now)) }
{
    match grid.texel {
        Texel::R8 if grid.width as usize <= WIDEST => byte_rows(grid, src, first, count, out),
        _ => by_texel!(means(grid, src, first, count, out)),
    }
}
