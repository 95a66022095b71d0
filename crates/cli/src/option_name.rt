//! The options of a command line, and their names.

ghost use Rattle.std.specs.Prelude.{◌≡◌};
ghost use Rattle.cli.specs.OptionNames.{action_of, name_of};

use clap::ArgAction;

/// The name of an option.
#[derive(Clone, Copy, Debug, PartialEq, Eq)]
pub enum OptionName {
    Workers,
    Tend,
    Number,
    Passes,
    Depth,
    Persist,
    Trace,
    Summary,
    Tight,
    Cost,
    Json,
}

pub(crate) const OPTION_NAMES: [OptionName; 11] = [
    OptionName::Workers,
    OptionName::Tend,
    OptionName::Number,
    OptionName::Passes,
    OptionName::Depth,
    OptionName::Persist,
    OptionName::Trace,
    OptionName::Summary,
    OptionName::Tight,
    OptionName::Cost,
    OptionName::Json,
];

/// Its name, which stands behind `--`.
pub(crate) fn name_of(option: OptionName) -> &'static str
    ensures { result.now ≡ name_of option }
{
    match option {
        OptionName::Workers => "workers",
        OptionName::Tend => "tend",
        OptionName::Number => "number",
        OptionName::Passes => "passes",
        OptionName::Depth => "depth",
        OptionName::Persist => "persist",
        OptionName::Trace => "trace",
        OptionName::Summary => "summary",
        OptionName::Tight => "tight",
        OptionName::Cost => "cost",
        OptionName::Json => "json",
    }
}

/// Whether a word stands behind it, or it is a flag.
pub(crate) fn action_of(option: OptionName) -> ArgAction
    ensures { result ≡ action_of option }
{
    match option {
        OptionName::Workers
        | OptionName::Tend
        | OptionName::Number
        | OptionName::Passes
        | OptionName::Depth
        | OptionName::Persist => ArgAction::Set,
        OptionName::Trace
        | OptionName::Summary
        | OptionName::Tight
        | OptionName::Cost
        | OptionName::Json => ArgAction::SetTrue,
    }
}
