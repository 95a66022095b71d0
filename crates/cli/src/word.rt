//! The words of the commands.

ghost use Rattle.std.specs.Prelude.{◌≡◌, option_copied};
ghost use Rattle.std.specs.List.{find};
ghost use Rattle.std.specs.Str.{bytes_eq};
ghost use Rattle.cli.specs.CommandWords.{text_of, word_of};

/// A command's word.
#[derive(Clone, Copy, Debug, PartialEq, Eq)]
pub enum Word {
    Cull,
    Place,
    Bound,
    Compile,
    Auto,
    Meaning,
    Migrate,
    Check,
    Gen,
    Run,
    Exec,
    Flight,
    Audit,
}

const WORDS: [Word; 13] = [
    Word::Cull,
    Word::Place,
    Word::Bound,
    Word::Compile,
    Word::Auto,
    Word::Meaning,
    Word::Migrate,
    Word::Check,
    Word::Gen,
    Word::Run,
    Word::Exec,
    Word::Flight,
    Word::Audit,
];

fn text_of(word: &Word) -> &'static str
    ensures { result.now ≡ text_of word.now }
{
    match word {
        Word::Cull => "cull",
        Word::Place => "place",
        Word::Bound => "bound",
        Word::Compile => "compile",
        Word::Auto => "auto",
        Word::Meaning => "meaning",
        Word::Migrate => "migrate",
        Word::Check => "check",
        Word::Gen => "gen",
        Word::Run => "run",
        Word::Exec => "exec",
        Word::Flight => "flight",
        Word::Audit => "audit",
    }
}

fn find<'a>(words: &'a [Word], text: &str) -> Option<&'a Word>
    ensures { option_copied result ≡ find (λ word. bytes_eq text.now (text_of word)) words.now }
{
    words.iter().find(|word| text == text_of(word))
}

/// The command that has this word.
pub(crate) fn word_of(text: &str) -> Option<Word>
    ensures { result ≡ word_of text.now }
{
    find(&WORDS, text).copied()
}
