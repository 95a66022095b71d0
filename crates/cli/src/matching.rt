//! Words, matched by the one `clap` command.

ghost use Rattle.std.specs.Prelude.{◌≡◌, IfOk, map, false, fold};
ghost use Rattle.clap.specs.Words.{app_of, rule_of, with_rule};
ghost use Rattle.cli.specs.Lines.{framec, bare_app, files_rule, option_rule, with_option, word_rule, Matches};

use crate::option_name::{OPTION_NAMES, OptionName, action_of, name_of};
use clap::error::ErrorKind;
use clap::{Arg, ArgAction, ArgMatches, Command};
use std::alloc::{AllocError, Global};

/// Why words have no matches.
#[derive(Clone, Copy, Debug, PartialEq, Eq)]
pub enum Unmatched {
    NoLine,
    NoMemory,
}

/// The command's word, and the files, as `clap` knows them.
pub(crate) const COMMAND: &str = "command";

pub(crate) const FILE: &str = "file";

fn word<'a>(alloc: Global) -> Arg<'a>
    ensures rule { rule_of result ≡ word_rule }
    ensures own { result.global ≡ false }
{
    Arg::new(alloc, COMMAND)
        .required(true)
        .action(ArgAction::Set)
}

fn files<'a>(alloc: Global) -> Arg<'a>
    ensures rule { rule_of result ≡ files_rule }
    ensures own { result.global ≡ false }
{
    Arg::new(alloc, FILE).action(ArgAction::Append)
}

fn bare<'a>(alloc: Global) -> Command<'a>
    ensures { app_of result ≡ bare_app }
{
    Command::new(alloc, "framec")
        .disable_help_flag(true)
        .disable_version_flag(true)
}

fn with_name<'a>(
    command: Command<'a>,
    alloc: Global,
    name: &'a str,
    action: ArgAction,
) -> Result<Command<'a>, AllocError>
    ensures { IfOk result (λ more. app_of more ≡ with_rule (app_of command.entry) (option_rule name.entry.now action)) }
{
    let option = Arg::new(alloc, name).long(name).action(action);
    let command = command.arg(option)?;
    Ok(command)
}

fn with_option<'a>(
    command: Command<'a>,
    alloc: Global,
    option: OptionName,
) -> Result<Command<'a>, AllocError>
    ensures { IfOk result (λ more. app_of more ≡ with_option (app_of command.entry) option) }
{
    with_name(command, alloc, name_of(option), action_of(option))
}

fn with_options<'a>(
    command: Command<'a>,
    alloc: Global,
    options: &[OptionName],
) -> Result<Command<'a>, AllocError>
    ensures { IfOk result (λ more. app_of more ≡ fold with_option (app_of command.entry) options.now) }
{
    let mut command = command;
    for option in options {
        command = with_option(command, alloc, *option)?;
    }
    Ok(command)
}

fn framec<'a>(alloc: Global) -> Result<Command<'a>, AllocError>
    ensures { IfOk result (λ command. app_of command ≡ framec) }
{
    let worded = bare(alloc).arg(word(alloc))?;
    let opted = with_options(worded, alloc, &OPTION_NAMES)?;
    let command = opted.arg(files(alloc))?;
    Ok(command)
}

/// The matches of the words, the first of which is the program's own name.
pub fn matches<'a>(alloc: Global, words: &'a [&'a str]) -> Result<ArgMatches<'a>, Unmatched>
    ensures { Matches (map (λ word. word.now) words.entry.now) result }
{
    let Ok(command) = framec(alloc) else {
        return Err(Unmatched::NoMemory);
    };
    match command.try_get_matches_from(words) {
        Ok(matches) => Ok(matches),
        Err(error) => if error.kind() == ErrorKind::OutOfMemory {
            Err(Unmatched::NoMemory)
        } else {
            Err(Unmatched::NoLine)
        },
    }
}
