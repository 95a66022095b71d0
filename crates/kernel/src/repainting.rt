//! One loop over the texels of a rectangle.

ghost use Rattle.std.specs.Prelude.{◌≡◌, ℕ, ◌+◌, ◌*◌, ◌≤◌, ◌<◌};
ghost use Rattle.base.specs.Texels.{modulus, painted, picture};
ghost use Rattle.kernel.specs.Bands.{HasRows};
ghost use Rattle.kernel.specs.Pictures.{inside_else};
ghost use Rattle.kernel.specs.Closures.{ChangesOnly};

use crate::texels::{get, put};
use base::Grid;

/// A rectangle of texels.
#[derive(Clone, Copy, Debug, PartialEq, Eq)]
pub struct Area {
    pub left: u32,
    pub top: u32,
    pub width: u32,
    pub height: u32,
}

/// Puts `f(old, x, y)`, cut to the texel, in the place of each number `old` of the area.
#[inline(always)]
pub fn repaint<F: Fn(u32, u32, u32) -> u32>(grid: Grid, area: Area, out: &mut [u8], f: F)
    requires size { HasRows grid grid.height out.old }
    requires columns { area.left + area.width ≤ grid.width }
    requires rows { area.top + area.height ≤ grid.height }
    requires calls { (old x y : ℕ) → old < modulus grid.texel → x < area.width → y < area.height → F.pre f old (area.left + x) (area.top + y) }
    ensures { (p : ℕ → ℕ → ℕ) → ChangesOnly (F.post f) grid area out.old p → out.new ≡ painted grid (inside_else area p (picture grid out.old)) }
{
    for row in 0..area.height {
        for column in 0..area.width {
            let (x, y) = (area.left + column, area.top + row);
            let i = y as usize * grid.width as usize + x as usize;
            let old = get(grid.texel, out, i);
            put(grid.texel, out, i, f(old, x, y));
        }
    }
}
