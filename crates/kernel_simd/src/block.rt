//! Blocks of bytes, whose texels are computed at once.

ghost use Rattle.std.specs.Prelude.{◌≡◌, ℕ, ◌+◌, ◌*◌, ◌<◌, length, slice_index};
ghost use Rattle.base.specs.Texels.{texel_at};
ghost use Rattle.base.specs.declared.shape.Texel.{Texel};
ghost use Rattle.base.specs.declared.shape.Texel.TheVariants.{R32};
ghost use Rattle.kernel_simd.specs.Internal.Blocks.{block_texels, combined, selected, AreTexels, IsPlace};

use crate::byte_lanes::{choose_bytes, fun_bytes, rising_bytes};
use crate::word_lanes::{choose_words, fun_words, rising_words};
use base::{Fun, Texel};
use std::simd::prelude::*;

/// The bytes of a block.
pub(crate) const BLOCK: usize = 32;

// Fewer bytes than a block has, and zeros after them. It is called once for each source, after a kernel's loop.
#[inline(never)]
fn padded(bytes: &[u8]) -> u8x32
    requires { length bytes.now < 32 }
    ensures { (k : ℕ) → k < 32 → slice_index result k ≡ slice_index bytes.now k }
{
    let mut block = [0u8; BLOCK];
    block[..bytes.len()].copy_from_slice(bytes);
    u8x32::from_array(block)
}

// The bytes from this place on, with zeros after the last.
#[inline(always)]
fn bytes_from(bytes: &[u8], at: usize, is_last: bool) -> u8x32
    requires { IsPlace at is_last (length bytes.now) }
    ensures { (k : ℕ) → k < 32 → slice_index result k ≡ slice_index bytes.now (at + k) }
{
    if is_last {
        padded(&bytes[at..])
    } else {
        u8x32::from_slice(&bytes[at..])
    }
}

/// The block from this place of one on, with zeros after the last byte. Whether it is the last one is told and not tested, so
/// that a loop over the others has no branch.
#[inline(always)]
pub(crate) fn load(bytes: &[u8], at: usize, is_last: bool) -> u8x32
    requires { IsPlace at is_last (length bytes.now) }
    ensures { (t : Texel) (b j : ℕ) → at ≡ 32 * b → j < block_texels t → texel_at t result j ≡ texel_at t bytes.now (block_texels t * b + j) }
{
    bytes_from(bytes, at, is_last)
}

#[inline(always)]
fn words_of(block: u8x32) -> u32x8
    ensures { (j : ℕ) → j < 8 → slice_index result j ≡ texel_at R32 block j }
{
    u32x8::from_le_bytes(block)
}

#[inline(always)]
fn block_of(words: u32x8) -> u8x32
    ensures { (j : ℕ) → j < 8 → texel_at R32 result j ≡ slice_index words j }
{
    words.to_le_bytes()
}

/// One number, cut to the texel, in each place.
#[inline(always)]
pub(crate) fn splat_block(texel: Texel, value: u32) -> u8x32
    ensures { AreTexels texel result (block_texels texel) (λ j. value) }
{
    match texel {
        Texel::R8 => u8x32::splat((value % 256) as u8),
        Texel::R32 => block_of(u32x8::splat(value)),
    }
}

/// Numbers that rise by `step` from `start` on.
#[inline(always)]
pub(crate) fn rising_block(texel: Texel, start: u32, step: u32) -> u8x32
    ensures { AreTexels texel result (block_texels texel) (λ j. start + j * step) }
{
    match texel {
        Texel::R8 => rising_bytes((start % 256) as u8, (step % 256) as u8),
        Texel::R32 => block_of(rising_words(start, step)),
    }
}

/// The function of each two texels.
#[inline(always)]
pub(crate) fn fun_block(texel: Texel, fun: Fun, a: u8x32, b: u8x32) -> u8x32
    ensures { AreTexels texel result (block_texels texel) (combined texel fun (texel_at texel a) (texel_at texel b)) }
{
    match texel {
        Texel::R8 => fun_bytes(fun, a, b),
        Texel::R32 => {
            let (first, second) = (words_of(a), words_of(b));
            block_of(fun_words(fun, first, second))
        }
    }
}

/// The texel of `b` where that of the mask is 0, and else that of `a`.
#[inline(always)]
pub(crate) fn choose_block(texel: Texel, mask: u8x32, a: u8x32, b: u8x32) -> u8x32
    ensures { AreTexels texel result (block_texels texel) (selected (texel_at texel mask) (texel_at texel a) (texel_at texel b)) }
{
    match texel {
        Texel::R8 => choose_bytes(mask, a, b),
        Texel::R32 => {
            let (test, own, other) = (words_of(mask), words_of(a), words_of(b));
            block_of(choose_words(test, own, other))
        }
    }
}
