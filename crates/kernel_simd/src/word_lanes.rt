//! Functions of eight words and eight words others.

ghost use Rattle.std.specs.Prelude.{◌≡◌, ◌==◌, ℕ, ◌+◌, ◌*◌, ◌/◌, ◌%◌, ◌^◌, ◌<◌, slice_index, min, max, if◌then◌else◌};
ghost use Rattle.base.specs.Kernels.{fun_of};
ghost use Rattle.base.specs.declared.shape.Texel.TheVariants.{R32};

use base::Fun;
use std::simd::prelude::*;

#[inline(always)]
fn least(a: u32x8, b: u32x8) -> u32x8
    ensures { (j : ℕ) → j < 8 → slice_index result j ≡ min (slice_index a j) (slice_index b j) }
{
    a.simd_min(b)
}

#[inline(always)]
fn greatest(a: u32x8, b: u32x8) -> u32x8
    ensures { (j : ℕ) → j < 8 → slice_index result j ≡ max (slice_index a j) (slice_index b j) }
{
    a.simd_max(b)
}

// By how many bits each lane is shifted.
#[inline(always)]
fn amounts(b: u32x8) -> u32x8
    ensures { (j : ℕ) → j < 8 → slice_index result j ≡ slice_index b j % 32 }
{
    b & u32x8::splat(31)
}

#[inline(always)]
fn up(a: u32x8, by: u32x8) -> u32x8
    requires { (j : ℕ) → j < 8 → slice_index by j < 32 }
    ensures { (j : ℕ) → j < 8 → slice_index result j ≡ slice_index a j * 2 ^ slice_index by j % 2 ^ 32 }
{
    a << by
}

#[inline(always)]
fn down(a: u32x8, by: u32x8) -> u32x8
    requires { (j : ℕ) → j < 8 → slice_index by j < 32 }
    ensures { (j : ℕ) → j < 8 → slice_index result j ≡ slice_index a j / 2 ^ slice_index by j }
{
    a >> by
}

/// The function of each two lanes.
#[inline(always)]
pub(crate) fn fun_words(fun: Fun, a: u32x8, b: u32x8) -> u32x8
    ensures { (j : ℕ) → j < 8 → slice_index result j ≡ fun_of R32 fun (slice_index a j) (slice_index b j) % 2 ^ 32 }
{
    match fun {
        Fun::Add => a + b,
        Fun::Sub => a - b,
        Fun::Mul => a * b,
        Fun::And => a & b,
        Fun::Or => a | b,
        Fun::Xor => a ^ b,
        Fun::Min => least(a, b),
        Fun::Max => greatest(a, b),
        Fun::Shl => up(a, amounts(b)),
        Fun::Shr => down(a, amounts(b)),
    }
}

/// The lane of `b` where that of the mask is 0, and else that of `a`.
#[inline(always)]
pub(crate) fn choose_words(mask: u32x8, a: u32x8, b: u32x8) -> u32x8
    ensures { (j : ℕ) → j < 8 → slice_index result j ≡ (if slice_index mask j == 0 then slice_index b j else slice_index a j) }
{
    mask.simd_eq(u32x8::splat(0)).select(b, a)
}

const PLACES: [u32; 8] = [0, 1, 2, 3, 4, 5, 6, 7];

/// Numbers that rise by `step` from `start` on.
#[inline(always)]
pub(crate) fn rising_words(start: u32, step: u32) -> u32x8
    ensures { (j : ℕ) → j < 8 → slice_index result j ≡ (start + j * step) % 2 ^ 32 }
{
    u32x8::splat(start) + u32x8::from_array(PLACES) * u32x8::splat(step)
}
