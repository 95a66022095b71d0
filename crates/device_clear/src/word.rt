//! Texels of one number as a word again and again.

ghost use Rattle.std.specs.Prelude.{◌≡◌, ◌<◌, IfSome};
ghost use Rattle.base.specs.Texels.{modulus};
ghost use Rattle.device_clear.specs.Internal.Words.{word_of};

use base::Texel;

/// The word whose bytes are texels of this number.
pub(crate) fn word_of(texel: Texel, value: u32) -> u32
    ensures { result ≡ word_of texel value }
{
    match texel {
        Texel::R8 => value % 256 * 0x0101_0101,
        Texel::R32 => value,
    }
}

/// The number of texels that are the bytes of a word, where they are alike.
pub(crate) fn number_in(texel: Texel, word: u32) -> Option<u32>
    ensures same { IfSome result (λ value. word ≡ word_of texel value) }
    ensures small { IfSome result (λ value. value < modulus texel) }
{
    let value = match texel {
        Texel::R8 => word % 256,
        Texel::R32 => word,
    };
    if word_of(texel, value) == word {
        Some(value)
    } else {
        None
    }
}
