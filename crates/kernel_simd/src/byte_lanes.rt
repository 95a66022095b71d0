//! Functions of 32 bytes and 32 bytes others.

ghost use Rattle.std.specs.Prelude.{◌≡◌, ◌==◌, ℕ, ◌+◌, ◌*◌, ◌/◌, ◌%◌, ◌^◌, ◌<◌, slice_index, min, max, if◌then◌else◌};
ghost use Rattle.base.specs.Kernels.{fun_of};
ghost use Rattle.base.specs.declared.shape.Texel.TheVariants.{R8};

use base::Fun;
use std::simd::prelude::*;

#[inline(always)]
fn least(a: u8x32, b: u8x32) -> u8x32
    ensures { (j : ℕ) → j < 32 → slice_index result j ≡ min (slice_index a j) (slice_index b j) }
{
    a.simd_min(b)
}

#[inline(always)]
fn greatest(a: u8x32, b: u8x32) -> u8x32
    ensures { (j : ℕ) → j < 32 → slice_index result j ≡ max (slice_index a j) (slice_index b j) }
{
    a.simd_max(b)
}

// By how many bits each lane is shifted.
#[inline(always)]
fn amounts(b: u8x32) -> u8x32
    ensures { (j : ℕ) → j < 32 → slice_index result j ≡ slice_index b j % 8 }
{
    b & u8x32::splat(7)
}

#[inline(always)]
fn up(a: u8x32, by: u8x32) -> u8x32
    requires { (j : ℕ) → j < 32 → slice_index by j < 8 }
    ensures { (j : ℕ) → j < 32 → slice_index result j ≡ slice_index a j * 2 ^ slice_index by j % 2 ^ 8 }
{
    a << by
}

#[inline(always)]
fn down(a: u8x32, by: u8x32) -> u8x32
    requires { (j : ℕ) → j < 32 → slice_index by j < 8 }
    ensures { (j : ℕ) → j < 32 → slice_index result j ≡ slice_index a j / 2 ^ slice_index by j }
{
    a >> by
}

/// The function of each two lanes.
#[inline(always)]
pub(crate) fn fun_bytes(fun: Fun, a: u8x32, b: u8x32) -> u8x32
    ensures { (j : ℕ) → j < 32 → slice_index result j ≡ fun_of R8 fun (slice_index a j) (slice_index b j) % 2 ^ 8 }
{
    match fun {
        Fun::Add => a + b,
        Fun::Sub => a - b,
        Fun::Mul => a * b,
        Fun::And => a & b,
        Fun::Or => a | b,
        Fun::Xor => a ^ b,
        Fun::Min => least(a, b),
        Fun::Max => greatest(a, b),
        Fun::Shl => up(a, amounts(b)),
        Fun::Shr => down(a, amounts(b)),
    }
}

/// The lane of `b` where that of the mask is 0, and else that of `a`.
#[inline(always)]
pub(crate) fn choose_bytes(mask: u8x32, a: u8x32, b: u8x32) -> u8x32
    ensures { (j : ℕ) → j < 32 → slice_index result j ≡ (if slice_index mask j == 0 then slice_index b j else slice_index a j) }
{
    mask.simd_eq(u8x32::splat(0)).select(b, a)
}

const PLACES: [u8; 32] = [
    0, 1, 2, 3, 4, 5, 6, 7, 8, 9, 10, 11, 12, 13, 14, 15, 16, 17, 18, 19, 20, 21, 22, 23, 24, 25,
    26, 27, 28, 29, 30, 31,
];

/// Numbers that rise by `step` from `start` on.
#[inline(always)]
pub(crate) fn rising_bytes(start: u8, step: u8) -> u8x32
    ensures { (j : ℕ) → j < 32 → slice_index result j ≡ (start + j * step) % 2 ^ 8 }
{
    u8x32::splat(start) + u8x32::from_array(PLACES) * u8x32::splat(step)
}
