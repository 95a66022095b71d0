//! One number everywhere.

ghost use Rattle.std.specs.Prelude.{◌≡◌, ◌+◌, ◌≤◌};
ghost use Rattle.base.specs.Texels.{band};
ghost use Rattle.kernel.specs.Bands.{HasRows};

use crate::painting::paint;
use base::Grid;

/// Rows of `clear_image`, from row `first` on.
pub fn clear_rows(grid: Grid, value: u32, first: u32, count: u32, out: &mut [u8])
    requires out { HasRows grid count out.old }
    requires rows { first + count ≤ grid.height }
    ensures { out.new ≡ band grid.texel grid.width first count (λ x y. value) }
{
    paint(
        grid.texel,
        out,
        grid.width,
        first,
        count,
        |_x: u32, _y: u32| -> u32
            ensures { result ≡ value }
        { value },
    );
}
