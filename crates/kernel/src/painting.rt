//! One loop over the texels of some rows.

ghost use Rattle.std.specs.Prelude.{◌≡◌, ℕ, ◌+◌, ◌*◌, ◌^◌, ◌≤◌, ◌<◌, length};
ghost use Rattle.base.specs.Shapes.{texel_bytes};
ghost use Rattle.base.specs.Texels.{band};
ghost use Rattle.kernel.specs.Closures.{GivesOnly};

use crate::texels::put;
use base::Texel;

/// Puts `f(x, y)`, cut to the texel, at each place of `count` rows from row `first` on. `out` holds these rows alone.
#[inline(always)]
pub fn paint<F: Fn(u32, u32) -> u32>(
    texel: Texel,
    out: &mut [u8],
    width: u32,
    first: u32,
    count: u32,
    f: F,
)
    requires size { length out.old ≡ texel_bytes texel * (width * count) }
    requires rows { first + count < 2 ^ 32 }
    requires calls { (x y : ℕ) → x < width → y < count → F.pre f x (first + y) }
    ensures { (p : ℕ → ℕ → ℕ) → GivesOnly (F.post f) texel width first count p → out.new ≡ band texel width first count p }
{
    let mut i = 0;
    for y in 0..count {
        for x in 0..width {
            put(texel, out, i, f(x, first + y));
            i += 1;
        }
    }
}

/// The same, where `edge` gives the first and the last column and `inner` those between. A closure that is never asked at
/// an edge needs no test for it.
#[inline(always)]
pub fn paint_framed<F: Fn(u32, u32) -> u32, G: Fn(u32, u32) -> u32>(
    texel: Texel,
    out: &mut [u8],
    width: u32,
    first: u32,
    count: u32,
    inner: F,
    edge: G,
)
    requires size { length out.old ≡ texel_bytes texel * (width * count) }
    requires rows { first + count < 2 ^ 32 }
    requires inner { (x y : ℕ) → 1 ≤ x → x + 1 < width → y < count → F.pre inner x (first + y) }
    requires edge { (x y : ℕ) → x < width → y < count → G.pre edge x (first + y) }
    ensures { (p : ℕ → ℕ → ℕ) → GivesOnly (F.post inner) texel width first count p → GivesOnly (G.post edge) texel width first count p → out.new ≡ band texel width first count p }
{
    if width == 0 {
        return;
    }
    let last = width - 1;
    let mut start = 0;
    for y in 0..count {
        put(texel, out, start, edge(0, first + y));
        put(texel, out, start + last as usize, edge(last, first + y));
        for x in 1..last {
            put(texel, out, start + x as usize, inner(x, first + y));
        }
        start += width as usize;
    }
}
