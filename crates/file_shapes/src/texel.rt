//! Texels in a file.

ghost use Rattle.std.specs.Prelude.{⊤};
ghost use Rattle.file_shapes.specs.Texels.{texel_of, texel_text, texel_again};

use base::Texel;
use file_json::Word;

/// The words of texels.
pub struct TexelWord;

impl Word for TexelWord {
    type Of = Texel;

    ghost value_of = { texel_of };

    ghost text_of = { texel_text };

    ghost Fits = { λ _. ⊤ };

    ghost again = { texel_again };

    fn value(text: &str) -> Option<Texel> {
        if text == "r8" {
            Some(Texel::R8)
        } else if text == "r32" {
            Some(Texel::R32)
        } else {
            None
        }
    }

    fn text(texel: &Texel) -> &str {
        match texel {
            Texel::R8 => "r8",
            Texel::R32 => "r32",
        }
    }
}
