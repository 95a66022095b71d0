//! Numbers that rise along rows and columns.

ghost use Rattle.std.specs.Prelude.{◌≡◌, ℕ, ◌+◌, ◌*◌, ◌/◌, ◌%◌, ◌^◌, ◌<◌, ◌≤◌, length};
ghost use Rattle.base.specs.Shapes.{texel_bytes};
ghost use Rattle.base.specs.Texels.{band};
ghost use Rattle.kernel_simd.specs.Internal.Blocks.{block_texels, AreTexels};
ghost use Rattle.kernel.specs.Bands.{HasRows};

use crate::block::rising_block;
use crate::constants::by_texel;
use crate::laying::lay;
use crate::rows::size_of;
use base::{Grid, Texel};
use std::simd::prelude::*;

#[inline(always)]
fn ramp_row(texel: Texel, width: u32, base: u32, dx: u32, dy: u32, y: u32, row: &mut [u8])
    requires { length row.old ≡ texel_bytes texel * width }
    ensures { row.new ≡ band texel width y 1 (λ x y. base + x * dx + y * dy) }
{
    let left = base.wrapping_add(y.wrapping_mul(dy));
    lay(
        row,
        |at: usize, _is_last: bool| -> u8x32
            requires { at < texel_bytes texel * 2 ^ 32 }
            ensures { (n : ℕ) → at ≡ 32 * n → AreTexels texel result (block_texels texel) (λ j. left + (block_texels texel * n + j) * dx) }
        {
            let x = (at / size_of(texel)) as u32;
            rising_block(texel, left.wrapping_add(x.wrapping_mul(dx)), dx)
        },
    );
}

#[inline(always)]
fn ramp_by(
    texel: Texel,
    width: u32,
    base: u32,
    dx: u32,
    dy: u32,
    first: u32,
    count: u32,
    out: &mut [u8],
)
    requires out { length out.old ≡ texel_bytes texel * (width * count) }
    requires rows { first + count < 2 ^ 32 }
    ensures { out.new ≡ band texel width first count (λ x y. base + x * dx + y * dy) }
{
    let row = size_of(texel) * width as usize;
    for y in 0..count {
        let start = row * y as usize;
        ramp_row(
            texel,
            width,
            base,
            dx,
            dy,
            first + y,
            &mut out[start..start + row],
        );
    }
}

/// Rows of `ramp`, from row `first` on.
pub(crate) fn ramp_rows(
    grid: Grid,
    base: u32,
    dx: u32,
    dy: u32,
    first: u32,
    count: u32,
    out: &mut [u8],
)
    requires out { HasRows grid count out.old }
    requires rows { first + count ≤ grid.height }
    ensures { out.new ≡ band grid.texel grid.width first count (λ x y. base + x * dx + y * dy) }
{
    by_texel!(ramp_by(grid.texel, grid.width, base, dx, dy, first, count, out))
}
