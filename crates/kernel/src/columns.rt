//! Three texels that stand above one another.

ghost use Rattle.std.specs.Prelude.{◌≡◌, ◌+◌, ◌-◌, ◌*◌, ◌%◌, ◌^◌, ◌<◌, ◌≤◌, min};
ghost use Rattle.base.specs.Kernels.{three};
ghost use Rattle.base.specs.Texels.{modulus, picture};
ghost use Rattle.kernel.specs.Bands.{HasRows};

use crate::texels::pick;
use base::Grid;

/// The coordinate after this one, held to the image.
#[inline(always)]
pub(crate) fn after(n: u32, k: u32) -> u32
    requires { k < n }
    ensures value { result ≡ min (k + 1) (n - 1) }
    ensures within { result < n }
{
    (k + 1).min(n - 1)
}

/// The sum of three texels, for which 32 bits may be too few.
#[derive(Clone, Copy)]
pub(crate) struct ColumnSum {
    /// Its low 32 bits.
    pub(crate) low: u32,
    /// The sum of the texels' 64ths, each rounded down.
    pub(crate) shares: u32,
}

/// The sum of column `x` over row `y` and the rows beside it.
#[inline(always)]
#[tactic(auto, unfolding(base::specs::Kernels::three))]
pub(crate) fn column_sum(grid: Grid, src: &[u8], x: u32, y: u32) -> ColumnSum
    requires size { HasRows grid grid.height src.now }
    requires x { x < grid.width }
    requires y { y < grid.height }
    ensures low { result.low ≡ three grid.height (picture grid src.now x) y % 2 ^ 32 }
    ensures shares { 64 * result.shares ≤ three grid.height (picture grid src.now x) y }
    ensures rests { three grid.height (picture grid src.now x) y ≤ 64 * result.shares + 3 * 63 }
    ensures small { three grid.height (picture grid src.now x) y + 3 ≤ 3 * modulus grid.texel }
{
    let above = pick(grid, src, x, y.saturating_sub(1));
    let here = pick(grid, src, x, y);
    let below = pick(grid, src, x, after(grid.height, y));
    ColumnSum {
        low: above.wrapping_add(here).wrapping_add(below),
        shares: above / 64 + here / 64 + below / 64,
    }
}
