//! Images that are cleared to one number.

ghost use Rattle.std.specs.Prelude.{◌≡◌, ◌<◌, true, length, IfSome};
ghost use Rattle.base.specs.Shapes.{bytes_of, is_image};
ghost use Rattle.base.specs.Texels.{canvas_of, modulus, painted};
ghost use Rattle.device_cache.specs.Repeats.{repeated};
ghost use Rattle.device_clear.specs.Internal.Words.{word_of};

use crate::word::{number_in, word_of};
use base::Shape;
use device_cache::Contents;
use kernel::canvas;

/// An image of so many bytes, each of whose texels is one number, cut to the texel. It takes no memory.
#[tactic(auto, using(crate::proofs::Clears::cleared_bytes, device_cache::proofs::Repeating::length_repeated))]
pub fn cleared(shape: Shape, value: u32, len: usize) -> Contents
    requires image { is_image shape ≡ true }
    requires long { len ≡ bytes_of shape }
    ensures bytes { result ≡ painted (canvas_of shape) (λ x y. value) }
    ensures long { length result ≡ len }
{
    Contents::repeated(word_of(canvas(shape).texel, value), len)
}

/// The number of each texel, where the bytes are known to be those of an image of one number.
#[tactic(auto, using(crate::proofs::Clears::cleared_from))]
pub(crate) fn value_of(shape: Shape, contents: &Contents) -> Option<u32>
    requires { length contents.now ≡ bytes_of shape }
    ensures image { IfSome result (λ value. is_image shape ≡ true) }
    ensures bytes { IfSome result (λ value. contents.now ≡ painted (canvas_of shape) (λ x y. value)) }
    ensures small { IfSome result (λ value. value < modulus (canvas_of shape).texel) }
{
    if !shape.is_image() {
        return None;
    }
    let word = contents.word()?;
    number_in(canvas(shape).texel, word)
}
