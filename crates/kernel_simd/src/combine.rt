//! A function of the texels of two sources.

ghost use Rattle.std.specs.Prelude.{◌≡◌, ℕ, ◌+◌, ◌*◌, ◌≤◌, length};
ghost use Rattle.base.specs.Texels.{texel_at, picture, band};
ghost use Rattle.kernel_simd.specs.Internal.Blocks.{block_texels, block_at, combined, AreTexels, Fills, IsPlace};
ghost use Rattle.kernel.specs.Bands.{HasRows};
ghost use Rattle.kernel.specs.Pictures.{all_combined};

use crate::block::{fun_block, load};
use crate::constants::{by_function, by_texel};
use crate::laying::lay;
use crate::rows::rows_of;
use base::{Fun, Grid, Texel};
use std::simd::prelude::*;

#[inline(always)]
fn combine_by(texel: Texel, fun: Fun, a: &[u8], b: &[u8], out: &mut [u8])
    requires a { length a.now ≡ length out.old }
    requires b { length b.now ≡ length out.old }
    ensures { Fills texel out.old out.new (combined texel fun (texel_at texel a.now) (texel_at texel b.now)) }
{
    lay(
        out,
        |at: usize, is_last: bool| -> u8x32
            requires { IsPlace at is_last (length a.now) × IsPlace at is_last (length b.now) }
            ensures { (n : ℕ) → at ≡ 32 * n → AreTexels texel result (block_texels texel) (combined texel fun (block_at texel n a.entry.now) (block_at texel n b.entry.now)) }
        { fun_block(texel, fun, load(a, at, is_last), load(b, at, is_last)) },
    );
}

// Texels of `combine`, all of them, by blocks.
fn combine_all(texel: Texel, fun: Fun, a: &[u8], b: &[u8], out: &mut [u8])
    requires a { length a.now ≡ length out.old }
    requires b { length b.now ≡ length out.old }
    ensures { Fills texel out.old out.new (combined texel fun (texel_at texel a.now) (texel_at texel b.now)) }
{
    by_function!(combine_by(texel, fun, a, b, out))
}

/// Rows of `combine`, from row `first` on.
pub(crate) fn combine_rows(
    grid: Grid,
    fun: Fun,
    a: &[u8],
    b: &[u8],
    first: u32,
    count: u32,
    out: &mut [u8],
)
    requires a { HasRows grid grid.height a.now }
    requires b { HasRows grid grid.height b.now }
    requires out { HasRows grid count out.old }
    requires rows { first + count ≤ grid.height }
    ensures { out.new ≡ band grid.texel grid.width first count (all_combined grid.texel fun (picture grid a.now) (picture grid b.now)) }
{
    let a = rows_of(grid, a, first, count);
    let b = rows_of(grid, b, first, count);
    combine_all(grid.texel, fun, a, b, out);
}
