//! The options of a line.

ghost use Rattle.std.specs.Prelude.{◌≡◌, ◌<◌, option_map};
ghost use Rattle.clap.specs.Words.{first_of, found_of, rows_of};
ghost use Rattle.cli.specs.LineOptions.{line_options_in, is_given, is_none, number_in, word_in};

use crate::number::number_within;
use crate::option_name::{OptionName, name_of};
use clap::ArgMatches;

/// The options of a line: the numbers of some, and whether the others are there.
#[derive(Clone, Copy, Debug)]
pub struct LineOptions {
    pub workers: Option<u32>,
    pub tend: Option<u32>,
    pub number: Option<u32>,
    pub passes: Option<u32>,
    pub depth: Option<u32>,
    /// Names are given.
    pub persist: bool,
    pub trace: bool,
    pub summary: bool,
    pub tight: bool,
    pub cost: bool,
    pub json: bool,
}

/// The first value of an argument.
pub(crate) fn text_in<'a>(matches: &ArgMatches<'a>, id: &str) -> Option<&'a str>
    ensures { option_map (λ text. text.now) result ≡ first_of id.now (rows_of (found_of matches.now)) }
{
    matches.get_str(id)
}

/// The word behind an option, or `true` or `false` of a flag.
pub(crate) fn word_in<'a>(matches: &ArgMatches<'a>, option: OptionName) -> Option<&'a str>
    ensures { option_map (λ text. text.now) result ≡ word_in option (rows_of (found_of matches.now)) }
{
    text_in(matches, name_of(option))
}

fn is_given(word: Option<&str>) -> bool
    ensures { result ≡ is_given (option_map (λ w. w.now) word.entry) }
{
    match word {
        Some(word) => word == "true",
        None => false,
    }
}

// No number where no word is given; none at all where the word is no number within these bounds.
fn number_in(word: Option<&str>, least: u32, most: u32) -> Option<Option<u32>>
    ensures { result ≡ number_in least most (option_map (λ w. w.now) word.entry) }
{
    match word {
        Some(word) => Some(Some(number_within(word, least, most)?)),
        None => Some(None),
    }
}

/// The options of a line; none where the word of one is no number within its bounds.
pub(crate) fn line_options_in(matches: &ArgMatches<'_>) -> Option<LineOptions>
    ensures { result ≡ line_options_in (rows_of (found_of matches.now)) }
{
    Some(LineOptions {
        workers: number_in(word_in(matches, OptionName::Workers), 1, 16)?,
        tend: number_in(word_in(matches, OptionName::Tend), 0, u32::MAX)?,
        number: number_in(word_in(matches, OptionName::Number), 0, u32::MAX)?,
        passes: number_in(word_in(matches, OptionName::Passes), 1, 256)?,
        depth: number_in(word_in(matches, OptionName::Depth), 1, 8)?,
        persist: word_in(matches, OptionName::Persist).is_some(),
        trace: is_given(word_in(matches, OptionName::Trace)),
        summary: is_given(word_in(matches, OptionName::Summary)),
        tight: is_given(word_in(matches, OptionName::Tight)),
        cost: is_given(word_in(matches, OptionName::Cost)),
        json: is_given(word_in(matches, OptionName::Json)),
    })
}

impl LineOptions {
    /// Whether there is no option.
    pub(crate) fn is_none(self) -> bool
        ensures { result ≡ is_none self }
    {
        let numbers = self.workers.is_some()
            || self.tend.is_some()
            || self.number.is_some()
            || self.passes.is_some()
            || self.depth.is_some();
        let flags = self.trace || self.summary || self.tight || self.cost || self.json;
        !(numbers || self.persist || flags)
    }
}
