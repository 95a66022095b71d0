//! One word again and again.

ghost use Rattle.std.specs.Prelude.{◌≡◌, ℕ, ◌+◌, ◌%◌, ◌≤◌, length};
ghost use Rattle.base.specs.Applied.{replaced};
ghost use Rattle.base.specs.Texels.{canvas_of, painted};
ghost use Rattle.base.specs.declared.shape.Shape.TheVariants.{Buffer};
ghost use Rattle.base.specs.declared.shape.Texel.TheVariants.{R32};
ghost use Rattle.kernel_simd.specs.Internal.Blocks.{AreTexels};

use crate::block::splat_block;
use crate::laying::lay;
use base::Texel;
use std::simd::prelude::*;

fn words(word: u32, out: &mut [u8])
    requires { length out.old % 4 ≡ 0 }
    ensures { out.new ≡ painted (canvas_of (Buffer (length out.old))) (λ x y. word) }
{
    lay(
        out,
        |_at: usize, _is_last: bool| -> u8x32
            ensures { AreTexels R32 result 8 (λ j. word) }
        { splat_block(Texel::R32, word) },
    );
}

/// Fills `size` bytes from `offset` on.
pub(crate) fn fill_words(offset: u32, size: u32, word: u32, out: &mut [u8])
    requires whole { size % 4 ≡ 0 }
    requires room { offset + size ≤ length out.old }
    ensures { out.new ≡ replaced out.old offset size (painted (canvas_of (Buffer size)) (λ x y. word)) }
{
    let (start, end) = (offset as usize, offset as usize + size as usize);
    words(word, &mut out[start..end]);
}
