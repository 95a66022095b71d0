//! A function of each texel.

ghost use Rattle.std.specs.Prelude.{◌≡◌, ◌+◌, ◌%◌, ◌<◌, ◌≤◌};
ghost use Rattle.base.specs.Kernels.{fun_of};
ghost use Rattle.base.specs.Texels.{modulus, picture, band};
ghost use Rattle.base.specs.declared.shape.Texel.TheVariants.{R8};
ghost use Rattle.kernel.specs.Bands.{HasRows};
ghost use Rattle.kernel.specs.Pictures.{all_combined};

use crate::constants::{by_function, by_texel};
use crate::function::{cut, fun_at};
use crate::painting::paint;
use crate::texels::pick;
use base::{Fun, Grid, Texel};

#[inline(always)]
fn map_by(grid: Grid, fun: Fun, value: u32, src: &[u8], first: u32, count: u32, out: &mut [u8])
    requires src { HasRows grid grid.height src.now }
    requires out { HasRows grid count out.old }
    requires rows { first + count ≤ grid.height }
    ensures { out.new ≡ band grid.texel grid.width first count (all_combined grid.texel fun (picture grid src.now) (λ x y. value % modulus grid.texel)) }
{
    let value = cut(grid.texel, value);
    paint(
        grid.texel,
        out,
        grid.width,
        first,
        count,
        |x: u32, y: u32| -> u32
            requires { HasRows grid grid.height src.now × (x < grid.width) × (y < grid.height) × (value < modulus grid.texel) }
            ensures { result % modulus grid.texel ≡ fun_of grid.texel fun (picture grid src.entry.now x y) value % modulus grid.texel }
        { fun_at(grid.texel, fun, pick(grid, src, x, y), value) },
    );
}

// Apart, so that the compiler knows that the constant is a byte, and works on bytes.
#[inline(never)]
fn map_bytes(grid: Grid, fun: Fun, value: u8, src: &[u8], first: u32, count: u32, out: &mut [u8])
    requires texel { grid.texel ≡ R8 }
    requires src { HasRows grid grid.height src.now }
    requires out { HasRows grid count out.old }
    requires rows { first + count ≤ grid.height }
    ensures { out.new ≡ band grid.texel grid.width first count (all_combined grid.texel fun (picture grid src.now) (λ x y. value)) }
{
    by_function!(map_by(grid, fun, u32::from(value), src, first, count, out))
}

/// Rows of `map`, from row `first` on.
pub fn map_rows(
    grid: Grid,
    fun: Fun,
    value: u32,
    src: &[u8],
    first: u32,
    count: u32,
    out: &mut [u8],
)
    requires src { HasRows grid grid.height src.now }
    requires out { HasRows grid count out.old }
    requires rows { first + count ≤ grid.height }
    ensures { out.new ≡ band grid.texel grid.width first count (all_combined grid.texel fun (picture grid src.now) (λ x y. value % modulus grid.texel)) }
{
    match grid.texel {
        Texel::R8 => map_bytes(grid, fun, (value % 256) as u8, src, first, count, out),
        Texel::R32 => by_function!(map_by(grid, fun, value, src, first, count, out)),
    }
}
