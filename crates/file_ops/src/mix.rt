//! How a rectangle changes texels.

ghost use Rattle.std.specs.Prelude.{◌≡◌, ⊤, option_copied};
ghost use Rattle.std.specs.List.{find};
ghost use Rattle.std.specs.Str.{bytes_eq};
ghost use Rattle.file_ops.specs.Mixes.{mix_of, mix_text, mix_again};

use base::Mix;
use file_json::{TextForm, Word};

const MIXES: [Mix; 4] = [Mix::Set, Mix::And, Mix::Or, Mix::Xor];

/// The words of the ways to change texels.
pub struct MixWord;

/// A way to change texels as text.
pub type MixForm = TextForm<MixWord>;

impl Word for MixWord {
    type Of = Mix;

    ghost value_of = { mix_of };

    ghost text_of = { mix_text };

    ghost Fits = { λ _. ⊤ };

    ghost again = { mix_again };

    fn value(text: &str) -> Option<Mix> {
        mix_of(text)
    }

    fn text(mix: &Mix) -> &str {
        mix_text(mix)
    }
}

fn mix_text(mix: &Mix) -> &'static str
    ensures { result.now ≡ mix_text mix.now }
{
    match mix {
        Mix::Set => "set",
        Mix::And => "and",
        Mix::Or => "or",
        Mix::Xor => "xor",
    }
}

fn find<'a>(mixes: &'a [Mix], text: &str) -> Option<&'a Mix>
    ensures { option_copied result ≡ find (λ mix. bytes_eq text.now (mix_text mix)) mixes.now }
{
    mixes.iter().find(|mix| text == mix_text(mix))
}

fn mix_of(text: &str) -> Option<Mix>
    ensures { result ≡ mix_of text.now }
{
    find(&MIXES, text).copied()
}
