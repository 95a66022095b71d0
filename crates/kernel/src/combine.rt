//! A function of the texels of two sources.

ghost use Rattle.std.specs.Prelude.{◌≡◌, ◌+◌, ◌%◌, ◌<◌, ◌≤◌};
ghost use Rattle.base.specs.Texels.{modulus, picture, band};
ghost use Rattle.kernel.specs.Bands.{HasRows};
ghost use Rattle.kernel.specs.Pictures.{all_combined};

use crate::constants::{by_function, by_texel};
use crate::function::fun_at;
use crate::painting::paint;
use crate::texels::pick;
use base::{Fun, Grid, Texel};

#[inline(always)]
fn combine_by(grid: Grid, fun: Fun, a: &[u8], b: &[u8], first: u32, count: u32, out: &mut [u8])
    requires a { HasRows grid grid.height a.now }
    requires b { HasRows grid grid.height b.now }
    requires out { HasRows grid count out.old }
    requires rows { first + count ≤ grid.height }
    ensures { out.new ≡ band grid.texel grid.width first count (all_combined grid.texel fun (picture grid a.now) (picture grid b.now)) }
{
    paint(
        grid.texel,
        out,
        grid.width,
        first,
        count,
        |x: u32, y: u32| -> u32
            requires { HasRows grid grid.height a.now × HasRows grid grid.height b.now × (x < grid.width) × (y < grid.height) }
            ensures { result % modulus grid.texel ≡ all_combined grid.texel fun (picture grid a.entry.now) (picture grid b.entry.now) x y % modulus grid.texel }
        { fun_at(grid.texel, fun, pick(grid, a, x, y), pick(grid, b, x, y)) },
    );
}

/// Rows of `combine`, from row `first` on.
pub fn combine_rows(
    grid: Grid,
    fun: Fun,
    a: &[u8],
    b: &[u8],
    first: u32,
    count: u32,
    out: &mut [u8],
)
    requires a { HasRows grid grid.height a.now }
    requires b { HasRows grid grid.height b.now }
    requires out { HasRows grid count out.old }
    requires rows { first + count ≤ grid.height }
    ensures { out.new ≡ band grid.texel grid.width first count (all_combined grid.texel fun (picture grid a.now) (picture grid b.now)) }
{
    by_function!(combine_by(grid, fun, a, b, first, count, out))
}
