//! Some rows of a source.

ghost use Rattle.std.specs.Prelude.{◌≡◌, ℕ, ◌+◌, ◌*◌, ◌<◌, ◌≤◌};
ghost use Rattle.base.specs.Shapes.{texel_bytes};
ghost use Rattle.base.specs.Texels.{texel_at, picture};
ghost use Rattle.kernel.specs.Bands.{HasRows};

use base::{Grid, Texel};

/// The bytes of a texel.
#[inline(always)]
pub(crate) fn size_of(texel: Texel) -> usize
    ensures { result ≡ texel_bytes texel }
{
    match texel {
        Texel::R8 => 1,
        Texel::R32 => 4,
    }
}

/// The bytes of `count` rows from row `first` on.
pub(crate) fn rows_of(grid: Grid, src: &[u8], first: u32, count: u32) -> &[u8]
    requires size { HasRows grid grid.height src.now }
    requires rows { first + count ≤ grid.height }
    ensures size { HasRows grid count result.now }
    ensures texels { (x y : ℕ) → x < grid.width → y < count → texel_at grid.texel result.now (y * grid.width + x) ≡ picture grid src.now x (first + y) }
{
    let row = size_of(grid.texel) * grid.width as usize;
    let start = row * first as usize;
    &src[start..start + row * count as usize]
}
