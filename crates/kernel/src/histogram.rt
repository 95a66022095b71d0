//! How often each byte stands.

ghost use Rattle.std.specs.Prelude.{◌≡◌, ◌==◌, ℕ, ◌+◌, ◌%◌, ◌^◌, ◌<◌, length, slice_index, count_by, if◌then◌else◌};
ghost use Rattle.base.specs.Texels.{painted, canvas_of};
ghost use Rattle.base.specs.declared.shape.Shape.TheVariants.{Buffer};

use crate::painting::paint;
use base::Texel;

#[inline(always)]
fn bump(counts: &mut [u32; 256], byte: u8)
    ensures { (v : ℕ) → slice_index counts.new v ≡ (slice_index counts.old v + (if byte == v then 1 else 0)) % 2 ^ 32 }
{
    let k = byte as usize;
    counts[k] = counts[k].wrapping_add(1);
}

fn counts_of(src: &[u8]) -> [u32; 256]
    ensures { (v : ℕ) → v < 256 → slice_index result v ≡ count_by (λ texel. texel == v) src.now % 2 ^ 32 }
{
    let mut counts = [0u32; 256];
    for byte in src {
        bump(&mut counts, *byte);
    }
    counts
}

/// Puts the number of bytes with value v, modulo 2^32, into word v.
pub fn count_texels(src: &[u8], out: &mut [u8])
    requires { length out.old ≡ 1024 }
    ensures { out.new ≡ painted (canvas_of (Buffer 1024)) (λ v row. count_by (λ texel. texel == v) src.now) }
{
    let counts = counts_of(src);
    paint(
        Texel::R32,
        out,
        256,
        0,
        1,
        |v: u32, _row: u32| -> u32
            requires { v < 256 }
            ensures { result ≡ slice_index counts v }
        { counts[v as usize] },
    );
}
