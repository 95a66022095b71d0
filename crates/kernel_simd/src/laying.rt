//! One loop over the blocks of some bytes.

ghost use Rattle.std.specs.Prelude.{◌≡◌, ℕ, Bool, ◌*◌, ◌/◌, length};
ghost use Rattle.base.specs.Shapes.{texel_bytes};
ghost use Rattle.base.specs.declared.shape.Texel.{Texel};
ghost use Rattle.kernel_simd.specs.Internal.Blocks.{AreTexels, GivesBlocks, IsPlace};

use crate::block::BLOCK;
use std::simd::prelude::*;

/// Puts `f(at, false)` at the place of each whole block, and of `f(at, true)` behind them as many bytes as are left, if any.
#[inline(always)]
pub(crate) fn lay<F: Fn(usize, bool) -> u8x32>(out: &mut [u8], f: F)
    requires { (b : ℕ) (is_last : Bool) → IsPlace (32 * b) is_last (length out.old) → F.pre f (32 * b) is_last }
    ensures { (t : Texel) (p : ℕ → ℕ) → GivesBlocks (F.post f) t (length out.old) p → AreTexels t out.new (length out.old / texel_bytes t) p }
{
    let count = out.len() / BLOCK;
    for block in 0..count {
        let at = BLOCK * block;
        f(at, false).copy_to_slice(&mut out[at..]);
    }
    let start = BLOCK * count;
    let last = f(start, true).to_array();
    let rest = out.len() - start;
    out[start..].copy_from_slice(&last[..rest]);
}
