//! A choice between the texels of two sources.

ghost use Rattle.std.specs.Prelude.{◌≡◌, ℕ, ◌+◌, ◌*◌, ◌≤◌, length};
ghost use Rattle.base.specs.Texels.{texel_at, picture, band};
ghost use Rattle.kernel_simd.specs.Internal.Blocks.{block_texels, block_at, selected, AreTexels, Fills, IsPlace};
ghost use Rattle.kernel.specs.Bands.{HasRows};
ghost use Rattle.kernel.specs.Pictures.{all_selected};

use crate::block::{choose_block, load};
use crate::constants::by_texel;
use crate::laying::lay;
use crate::rows::rows_of;
use base::{Grid, Texel};
use std::simd::prelude::*;

#[inline(always)]
fn select_by(texel: Texel, mask: &[u8], a: &[u8], b: &[u8], out: &mut [u8])
    requires mask { length mask.now ≡ length out.old }
    requires a { length a.now ≡ length out.old }
    requires b { length b.now ≡ length out.old }
    ensures { Fills texel out.old out.new (selected (texel_at texel mask.now) (texel_at texel a.now) (texel_at texel b.now)) }
{
    lay(
        out,
        |at: usize, is_last: bool| -> u8x32
            requires { IsPlace at is_last (length mask.now) × IsPlace at is_last (length a.now) × IsPlace at is_last (length b.now) }
            ensures { (n : ℕ) → at ≡ 32 * n → AreTexels texel result (block_texels texel) (selected (block_at texel n mask.entry.now) (block_at texel n a.entry.now) (block_at texel n b.entry.now)) }
        {
            choose_block(
                texel,
                load(mask, at, is_last),
                load(a, at, is_last),
                load(b, at, is_last),
            )
        },
    );
}

// Texels of `select`, all of them, by blocks.
fn select_all(texel: Texel, mask: &[u8], a: &[u8], b: &[u8], out: &mut [u8])
    requires mask { length mask.now ≡ length out.old }
    requires a { length a.now ≡ length out.old }
    requires b { length b.now ≡ length out.old }
    ensures { Fills texel out.old out.new (selected (texel_at texel mask.now) (texel_at texel a.now) (texel_at texel b.now)) }
{
    by_texel!(select_by(texel, mask, a, b, out))
}

/// Rows of `select`, from row `first` on.
pub(crate) fn select_rows(
    grid: Grid,
    mask: &[u8],
    a: &[u8],
    b: &[u8],
    first: u32,
    count: u32,
    out: &mut [u8],
)
    requires mask { HasRows grid grid.height mask.now }
    requires a { HasRows grid grid.height a.now }
    requires b { HasRows grid grid.height b.now }
    requires out { HasRows grid count out.old }
    requires rows { first + count ≤ grid.height }
    ensures { out.new ≡ band grid.texel grid.width first count (all_selected (picture grid mask.now) (picture grid a.now) (picture grid b.now)) }
{
    let mask = rows_of(grid, mask, first, count);
    let a = rows_of(grid, a, first, count);
    let b = rows_of(grid, b, first, count);
    select_all(grid.texel, mask, a, b, out);
}
