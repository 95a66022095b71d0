//! A function of each texel and one number.

ghost use Rattle.std.specs.Prelude.{◌≡◌, ℕ, ◌+◌, ◌*◌, ◌%◌, ◌≤◌, length};
ghost use Rattle.base.specs.Texels.{modulus, texel_at, picture, band};
ghost use Rattle.kernel_simd.specs.Internal.Blocks.{block_texels, block_at, combined, AreTexels, Fills, IsPlace};
ghost use Rattle.kernel.specs.Bands.{HasRows};
ghost use Rattle.kernel.specs.Pictures.{all_combined};

use crate::block::{fun_block, load, splat_block};
use crate::constants::{by_function, by_texel};
use crate::laying::lay;
use crate::rows::rows_of;
use base::{Fun, Grid, Texel};
use std::simd::prelude::*;

#[inline(always)]
fn map_by(texel: Texel, fun: Fun, value: u32, src: &[u8], out: &mut [u8])
    requires { length src.now ≡ length out.old }
    ensures { Fills texel out.old out.new (combined texel fun (texel_at texel src.now) (λ k. value % modulus texel)) }
{
    lay(
        out,
        |at: usize, is_last: bool| -> u8x32
            requires { IsPlace at is_last (length src.now) }
            ensures { (n : ℕ) → at ≡ 32 * n → AreTexels texel result (block_texels texel) (combined texel fun (block_at texel n src.entry.now) (λ j. value % modulus texel)) }
        {
            fun_block(
                texel,
                fun,
                load(src, at, is_last),
                splat_block(texel, value),
            )
        },
    );
}

// Texels of `map`, all of them, by blocks.
fn map_all(texel: Texel, fun: Fun, value: u32, src: &[u8], out: &mut [u8])
    requires { length src.now ≡ length out.old }
    ensures { Fills texel out.old out.new (combined texel fun (texel_at texel src.now) (λ k. value % modulus texel)) }
{
    by_function!(map_by(texel, fun, value, src, out))
}

/// Rows of `map`, from row `first` on.
pub(crate) fn map_rows(
    grid: Grid,
    fun: Fun,
    value: u32,
    src: &[u8],
    first: u32,
    count: u32,
    out: &mut [u8],
)
    requires src { HasRows grid grid.height src.now }
    requires out { HasRows grid count out.old }
    requires rows { first + count ≤ grid.height }
    ensures { out.new ≡ band grid.texel grid.width first count (all_combined grid.texel fun (picture grid src.now) (λ x y. value % modulus grid.texel)) }
{
    map_all(
        grid.texel,
        fun,
        value,
        rows_of(grid, src, first, count),
        out,
    );
}
