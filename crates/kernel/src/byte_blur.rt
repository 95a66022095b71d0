//! The mean of nine bytes. The sums of columns are kept for a row, since each is asked for three times.

ghost use Rattle.std.specs.Prelude.{◌≡◌, ◌+◌, ◌/◌, ◌^◌, ◌<◌, ◌≤◌, length, slice_index};
ghost use Rattle.base.specs.Kernels.{three, box3};
ghost use Rattle.base.specs.Texels.{picture, band};
ghost use Rattle.base.specs.declared.shape.Texel.TheVariants.{R8};
ghost use Rattle.kernel.specs.Bands.{HasRows};
ghost use Rattle.kernel.specs.Internal.Sums.{AreColumns, AreSmall};

use crate::columns::{after, column_sum};
use crate::painting::paint_framed;
use base::{Grid, Texel};

/// The widest image whose sums are kept.
pub(crate) const WIDEST: usize = 4096;

#[inline(always)]
fn sum_columns(grid: Grid, src: &[u8], y: u32, sums: &mut [u16])
    requires size { HasRows grid grid.height src.now }
    requires texel { grid.texel ≡ R8 }
    requires y { y < grid.height }
    requires room { grid.width ≤ length sums.old }
    ensures columns { AreColumns grid src.now y grid.width sums.new }
    ensures small { AreSmall grid.width sums.new }
{
    for x in 0..grid.width {
        sums[x as usize] = column_sum(grid, src, x, y).low as u16;
    }
}

#[inline(always)]
fn mean_of(sums: &[u16], width: u32, left: u32, x: u32, right: u32) -> u32
    requires room { width ≤ length sums.now }
    requires columns { (left < width) × (x < width) × (right < width) }
    requires small { AreSmall width sums.now }
    ensures { result ≡ (slice_index sums.now left + slice_index sums.now x + slice_index sums.now right) / 9 }
{
    u32::from((sums[left as usize] + sums[x as usize] + sums[right as usize]) / 9)
}

#[inline(always)]
#[tactic(auto, unfolding(base::specs::Kernels::three))]
fn paint_means(width: u32, sums: &[u16], y: u32, row: &mut [u8])
    requires y { y + 1 < 2 ^ 32 }
    requires room { width ≤ length sums.now }
    requires small { AreSmall width sums.now }
    requires row { length row.old ≡ width }
    ensures { row.new ≡ band R8 width y 1 (λ x row. three width (slice_index sums.now) x / 9) }
{
    paint_framed(
        Texel::R8,
        row,
        width,
        y,
        1,
        |x: u32, _y: u32| -> u32
            requires { (width ≤ length sums.now) × AreSmall width sums.now × (1 ≤ x) × (x + 1 < width) }
            ensures { result ≡ three width (slice_index sums.entry.now) x / 9 }
        { mean_of(sums, width, x - 1, x, x + 1) },
        |x: u32, _y: u32| -> u32
            requires { (width ≤ length sums.now) × AreSmall width sums.now × (x < width) }
            ensures { result ≡ three width (slice_index sums.entry.now) x / 9 }
        { mean_of(sums, width, x.saturating_sub(1), x, after(width, x)) },
    );
}

#[inline(always)]
fn blur_row(grid: Grid, src: &[u8], y: u32, sums: &mut [u16], row: &mut [u8])
    requires size { HasRows grid grid.height src.now }
    requires texel { grid.texel ≡ R8 }
    requires y { y < grid.height }
    requires room { grid.width ≤ length sums.old }
    requires row { length row.old ≡ grid.width }
    ensures { row.new ≡ band R8 grid.width y 1 (box3 grid.width grid.height (picture grid src.now)) }
{
    sum_columns(grid, src, y, sums);
    paint_means(grid.width, sums, y, row);
}

/// Rows of `box3` of bytes, from row `first` on.
pub(crate) fn byte_rows(grid: Grid, src: &[u8], first: u32, count: u32, out: &mut [u8])
    requires texel { grid.texel ≡ R8 }
    requires width { grid.width ≤ WIDEST }
    requires src { HasRows grid grid.height src.now }
    requires out { HasRows grid count out.old }
    requires rows { first + count ≤ grid.height }
    ensures { out.new ≡ band grid.texel grid.width first count (box3 grid.width grid.height (picture grid src.now)) }
{
    // With a constant texel the loops have no branch for it.
    let grid = Grid {
        width: grid.width,
        height: grid.height,
        texel: Texel::R8,
    };
    let width = grid.width as usize;
    let mut sums = [0u16; WIDEST];
    for y in 0..count {
        let start = y as usize * width;
        blur_row(
            grid,
            src,
            first + y,
            &mut sums,
            &mut out[start..start + width],
        );
    }
}
