//! Numbers in texels of another size.

ghost use Rattle.std.specs.Prelude.{◌≡◌, ◌+◌, ◌<◌, ◌≤◌};
ghost use Rattle.base.specs.Texels.{picture, band};
ghost use Rattle.kernel.specs.Bands.{HasRows};

use crate::painting::paint;
use crate::texels::pick;
use base::{Grid, Texel};

/// Rows of `convert`, from row `first` on. `grid` is the source's.
pub fn convert_rows(grid: Grid, texel: Texel, src: &[u8], first: u32, count: u32, out: &mut [u8])
    requires src { HasRows grid grid.height src.now }
    requires out { HasRows (record grid { texel = texel }) count out.old }
    requires rows { first + count ≤ grid.height }
    ensures { out.new ≡ band texel grid.width first count (picture grid src.now) }
{
    paint(
        texel,
        out,
        grid.width,
        first,
        count,
        |x: u32, y: u32| -> u32
            requires { HasRows grid grid.height src.now × (x < grid.width) × (y < grid.height) }
            ensures { result ≡ picture grid src.entry.now x y }
        { pick(grid, src, x, y) },
    );
}
