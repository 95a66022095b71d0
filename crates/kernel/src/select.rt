//! A choice between the texels of two sources.

ghost use Rattle.std.specs.Prelude.{◌≡◌, ◌+◌, ◌%◌, ◌<◌, ◌≤◌};
ghost use Rattle.base.specs.Texels.{picture, band};
ghost use Rattle.kernel.specs.Bands.{HasRows};
ghost use Rattle.kernel.specs.Pictures.{all_selected};

use crate::painting::paint;
use crate::texels::pick;
use base::Grid;

/// Rows of `select`, from row `first` on.
pub fn select_rows(
    grid: Grid,
    mask: &[u8],
    a: &[u8],
    b: &[u8],
    first: u32,
    count: u32,
    out: &mut [u8],
)
    requires mask { HasRows grid grid.height mask.now }
    requires a { HasRows grid grid.height a.now }
    requires b { HasRows grid grid.height b.now }
    requires out { HasRows grid count out.old }
    requires rows { first + count ≤ grid.height }
    ensures { out.new ≡ band grid.texel grid.width first count (all_selected (picture grid mask.now) (picture grid a.now) (picture grid b.now)) }
{
    paint(
        grid.texel,
        out,
        grid.width,
        first,
        count,
        |x: u32, y: u32| -> u32
            requires { HasRows grid grid.height mask.now × HasRows grid grid.height a.now × HasRows grid grid.height b.now × (x < grid.width) × (y < grid.height) }
            ensures { result ≡ all_selected (picture grid mask.entry.now) (picture grid a.entry.now) (picture grid b.entry.now) x y }
        {
            let (other, own) = (pick(grid, b, x, y), pick(grid, a, x, y));
            if pick(grid, mask, x, y) == 0 {
                other
            } else {
                own
            }
        },
    );
}
