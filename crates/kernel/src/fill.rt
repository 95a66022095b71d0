//! One word again and again.

ghost use Rattle.std.specs.Prelude.{◌≡◌, ◌+◌, ◌%◌, ◌≤◌, length};
ghost use Rattle.base.specs.Applied.{replaced};
ghost use Rattle.base.specs.Texels.{canvas_of, painted};
ghost use Rattle.base.specs.declared.shape.Shape.TheVariants.{Buffer};

use crate::painting::paint;
use base::Texel;

/// Fills `size` bytes from `offset` on.
pub fn fill_words(offset: u32, size: u32, word: u32, out: &mut [u8])
    requires whole { size % 4 ≡ 0 }
    requires room { offset + size ≤ length out.old }
    ensures { out.new ≡ replaced out.old offset size (painted (canvas_of (Buffer size)) (λ x y. word)) }
{
    let (start, end) = (offset as usize, offset as usize + size as usize);
    paint(
        Texel::R32,
        &mut out[start..end],
        size / 4,
        0,
        1,
        |_x: u32, _y: u32| -> u32
            ensures { result ≡ word }
        { word },
    );
}
