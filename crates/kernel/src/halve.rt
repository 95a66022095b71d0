//! The mean of four texels.

ghost use Rattle.std.specs.Prelude.{◌≡◌, ◌+◌, ◌*◌, ◌%◌, ◌<◌, ◌≤◌};
ghost use Rattle.base.specs.Kernels.{halved};
ghost use Rattle.base.specs.Texels.{picture, band};
ghost use Rattle.base.specs.declared.shape.Texel.TheVariants.{R8};
ghost use Rattle.kernel.specs.Bands.{HasRows};

use crate::painting::paint;
use crate::texels::pick;
use base::{Grid, Texel};

#[inline(always)]
#[tactic(auto, unfolding(base::specs::Kernels::halved))]
fn halved_at(grid: Grid, src: &[u8], x: u32, y: u32) -> u32
    requires size { HasRows grid grid.height src.now }
    requires x { 2 * x + 1 < grid.width }
    requires y { 2 * y + 1 < grid.height }
    ensures { result ≡ halved (picture grid src.now) x y }
{
    let (left, top) = (2 * x, 2 * y);
    let a = pick(grid, src, left, top);
    let b = pick(grid, src, left + 1, top);
    let c = pick(grid, src, left, top + 1);
    let d = pick(grid, src, left + 1, top + 1);
    ((u64::from(a) + u64::from(b) + u64::from(c) + u64::from(d)) / 4) as u32
}

// The sum of two texels of one byte, side by side. They are read as one number, and their place is reckoned in the width of
// places, so that the compiler reads many of them at once.
#[inline(always)]
fn pair_of(grid: Grid, src: &[u8], x: u32, y: u32) -> u16
    requires size { HasRows grid grid.height src.now }
    requires texel { grid.texel ≡ R8 }
    requires x { 2 * x + 1 < grid.width }
    requires y { y < grid.height }
    ensures value { result ≡ picture grid src.now (2 * x) y + picture grid src.now (2 * x + 1) y }
    ensures small { result < 512 }
{
    let i = y as usize * grid.width as usize + 2 * x as usize;
    let Some(pair) = src[i..].first_chunk::<2>() else {
        unreachable!();
    };
    let both = u16::from_le_bytes(*pair);
    both % 256 + both / 256
}

#[inline(always)]
#[tactic(auto, unfolding(base::specs::Kernels::halved))]
fn halved_bytes(grid: Grid, src: &[u8], x: u32, y: u32) -> u32
    requires size { HasRows grid grid.height src.now }
    requires texel { grid.texel ≡ R8 }
    requires x { 2 * x + 1 < grid.width }
    requires y { 2 * y + 1 < grid.height }
    ensures { result ≡ halved (picture grid src.now) x y }
{
    u32::from((pair_of(grid, src, x, 2 * y) + pair_of(grid, src, x, 2 * y + 1)) / 4)
}

/// Rows of `halve`, from row `first` on. `grid` is the source's, whose sides are twice those of the result.
pub fn halve_rows(grid: Grid, half: Grid, src: &[u8], first: u32, count: u32, out: &mut [u8])
    requires sides { (grid.width ≡ 2 * half.width) × (grid.height ≡ 2 * half.height) }
    requires src { HasRows grid grid.height src.now }
    requires out { HasRows half count out.old }
    requires rows { first + count ≤ half.height }
    ensures { out.new ≡ band half.texel half.width first count (halved (picture grid src.now)) }
{
    match grid.texel {
        Texel::R8 => paint(
            half.texel,
            out,
            half.width,
            first,
            count,
            |x: u32, y: u32| -> u32
                requires { HasRows grid grid.height src.now × (grid.texel ≡ R8) × (2 * x + 1 < grid.width) × (2 * y + 1 < grid.height) }
                ensures { result ≡ halved (picture grid src.entry.now) x y }
            { halved_bytes(grid, src, x, y) },
        ),
        Texel::R32 => paint(
            half.texel,
            out,
            half.width,
            first,
            count,
            |x: u32, y: u32| -> u32
                requires { HasRows grid grid.height src.now × (2 * x + 1 < grid.width) × (2 * y + 1 < grid.height) }
                ensures { result ≡ halved (picture grid src.entry.now) x y }
            { halved_at(grid, src, x, y) },
        ),
    }
}
