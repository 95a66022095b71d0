//! What a kernel makes of two numbers.

ghost use Rattle.std.specs.Prelude.{◌≡◌, ◌%◌, ◌<◌};
ghost use Rattle.base.specs.Kernels.{fun_of};
ghost use Rattle.base.specs.Texels.{modulus, texel_bits};

use base::{Fun, Texel};

/// A number cut to the texel.
#[inline(always)]
pub fn cut(texel: Texel, value: u32) -> u32
    ensures { result ≡ value % modulus texel }
{
    match texel {
        Texel::R8 => value % 256,
        Texel::R32 => value,
    }
}

#[inline(always)]
fn bits(texel: Texel) -> u32
    ensures { result ≡ texel_bits texel }
{
    match texel {
        Texel::R8 => 8,
        Texel::R32 => 32,
    }
}

/// The function of two texels, where the result is still to be cut.
#[inline(always)]
#[tactic(auto, using(crate::proofs::Moduli::kept))]
pub fn fun_at(texel: Texel, fun: Fun, a: u32, b: u32) -> u32
    requires first { a < modulus texel }
    requires second { b < modulus texel }
    ensures { result % modulus texel ≡ fun_of texel fun a b % modulus texel }
{
    match fun {
        Fun::Add => a.wrapping_add(b),
        Fun::Sub => a.wrapping_sub(b),
        Fun::Mul => a.wrapping_mul(b),
        Fun::And => a & b,
        Fun::Or => a | b,
        Fun::Xor => a ^ b,
        Fun::Min => a.min(b),
        Fun::Max => a.max(b),
        Fun::Shl => a << (b % bits(texel)),
        Fun::Shr => a >> (b % bits(texel)),
    }
}
