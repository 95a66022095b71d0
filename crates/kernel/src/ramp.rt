//! Numbers that rise along rows and columns.

ghost use Rattle.std.specs.Prelude.{◌≡◌, ◌+◌, ◌*◌, ◌%◌, ◌^◌, ◌≤◌};
ghost use Rattle.base.specs.Texels.{band};
ghost use Rattle.kernel.specs.Bands.{HasRows};

use crate::painting::paint;
use base::Grid;

/// Rows of `ramp`, from row `first` on.
#[tactic(auto, using(crate::proofs::Moduli::kept_twice))]
pub fn ramp_rows(grid: Grid, base: u32, dx: u32, dy: u32, first: u32, count: u32, out: &mut [u8])
    requires out { HasRows grid count out.old }
    requires rows { first + count ≤ grid.height }
    ensures { out.new ≡ band grid.texel grid.width first count (λ x y. base + x * dx + y * dy) }
{
    paint(
        grid.texel,
        out,
        grid.width,
        first,
        count,
        |x: u32, y: u32| -> u32
            ensures { result ≡ (base + x * dx + y * dy) % 2 ^ 32 }
        {
            base.wrapping_add(x.wrapping_mul(dx))
                .wrapping_add(y.wrapping_mul(dy))
        },
    );
}
