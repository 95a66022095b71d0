//! Which command words are, and which files it reads.

ghost use Rattle.std.specs.Prelude.{◌≡◌, ◌∷◌, IfOk, IfSome, map, string_bytes, codes};
ghost use Rattle.clap.specs.Words.{rows_of, found_of};
ghost use Rattle.cli.specs.Commands.{IsBounded, choosing, command_in, command_of_word, flying, generating, unless_more, without_json, without_options};
ghost use Rattle.cli.specs.Files.{line_in, with_files};
ghost use Rattle.cli.specs.LineOptions.{word_in};
ghost use Rattle.cli.specs.Lines.{line_of};
ghost use Rattle.cli.specs.Persist.{persist_in};
ghost use Rattle.cli.specs.declared.command.Command.TheVariants as commands;

use crate::files::{files_in, takes_files};
use crate::form::form_of;
use crate::line_options::{LineOptions, line_options_in, text_in, word_in};
use crate::matching::{COMMAND, Unmatched, matches};
use crate::option_name::OptionName;
use crate::options::run_options;
use crate::persist::persist_in;
use crate::word::{Word, word_of};
use crate::{Command, FileName, FrameCommand, SubmissionCommand};
use base::{List, Name, NoMemory};
use clap::ArgMatches;
use std::alloc::Global;

/// A command, and the files that it reads in the place of standard input.
#[derive(Debug, Drop)]
pub struct Line {
    pub command: Command,
    /// None where standard input is read, or nothing.
    pub files: List<FileName>,
}

/// The command of the words after the program's name, and its files; none where they are no command line.
#[tactic(auto, using(crate::proofs::Bounds::bounded_lines))]
pub fn line_of(alloc: Global, words: &[String]) -> Result<Option<Line>, NoMemory>
    ensures line { IfOk result (λ line. line ≡ line_of (map string_bytes words.now)) }
    ensures bounded { IfSome (line_of (map string_bytes words.now)) (λ line. IsBounded line.command) }
{
    let line = whole_line(alloc, words)?;
    match matches(alloc, line.as_slice()) {
        Ok(matches) => line_in(alloc, &matches),
        Err(Unmatched::NoLine) => Ok(None),
        Err(Unmatched::NoMemory) => Err(NoMemory),
    }
}

// The whole line, the program's own name first.
fn whole_line<'a>(alloc: Global, words: &'a [String]) -> Result<Vec<&'a str>, NoMemory>
    ensures { IfOk result (λ line. map (λ word. word.now) line.items ≡ codes "framec" ∷ map string_bytes words.entry.now) }
{
    let mut line: Vec<&'a str> = Vec::new(alloc);
    line.push("framec")?;
    for word in words {
        line.push(word.as_str())?;
    }
    Ok(line)
}

// The command, with these persisting names.
fn command_with(matches: &ArgMatches<'_>, persist: Option<List<Name>>) -> Option<Command>
    requires { persist ≡ persist_in (word_in OptionName.Persist (rows_of (found_of matches.now))) }
    ensures { result ≡ command_in (rows_of (found_of matches.now)) }
{
    let word = word_of(text_in(matches, COMMAND)?)?;
    command_of_word(word, line_options_in(matches)?, persist)
}

fn command_in(alloc: Global, matches: &ArgMatches<'_>) -> Result<Option<Command>, NoMemory>
    ensures { IfOk result (λ command. command ≡ command_in (rows_of (found_of matches.now))) }
{
    let persist = persist_in(alloc, word_in(matches, OptionName::Persist))?;
    Ok(command_with(matches, persist))
}

// The command with its files, where it takes so many.
fn with_files(files: List<FileName>, command: Command) -> Option<Line>
    ensures { result ≡ with_files files command }
{
    if takes_files(&command, files.len()) {
        Some(Line { command, files })
    } else {
        None
    }
}

fn line_in(alloc: Global, matches: &ArgMatches<'_>) -> Result<Option<Line>, NoMemory>
    ensures { IfOk result (λ line. line ≡ line_in (rows_of (found_of matches.now))) }
{
    let files = files_in(alloc, matches)?;
    match command_in(alloc, matches)? {
        Some(command) => Ok(with_files(files, command)),
        None => Ok(None),
    }
}

// The command, where no option is left that it does not take.
fn unless_more(rest: LineOptions, command: Command) -> Option<Command>
    ensures { result ≡ unless_more rest command }
{
    if rest.is_none() { Some(command) } else { None }
}

fn without_options(given: LineOptions) -> LineOptions
    ensures { result ≡ without_options given }
{
    LineOptions {
        workers: None,
        tend: None,
        ..given
    }
}

fn without_trace(given: LineOptions) -> LineOptions
    ensures { result ≡ record (without_options given) { trace = Rattle.std.specs.Prelude.false } }
{
    LineOptions {
        trace: false,
        ..without_options(given)
    }
}

fn without_tight(given: LineOptions) -> LineOptions
    ensures { result ≡ record given { tight = Rattle.std.specs.Prelude.false } }
{
    LineOptions {
        tight: false,
        ..given
    }
}

fn without_json(given: LineOptions) -> LineOptions
    ensures { result ≡ without_json given }
{
    LineOptions {
        json: false,
        ..given
    }
}

// A frame with other queues, or what that saves.
fn choosing(given: LineOptions) -> Option<Command>
    ensures { result ≡ choosing given }
{
    if given.cost {
        let rest = LineOptions {
            cost: false,
            ..without_json(given)
        };
        of_frame(
            rest,
            FrameCommand::Cost {
                form: form_of(given.json),
            },
        )
    } else {
        of_frame(given, FrameCommand::Auto)
    }
}

// The frame of a number, or its summary.
fn generating(given: LineOptions, number: u32) -> Option<Command>
    ensures { result ≡ generating given number }
{
    let passes = given.passes.unwrap_or(64);
    let rest = LineOptions {
        number: None,
        passes: None,
        summary: false,
        ..given
    };
    if given.summary {
        let options = run_options(given);
        unless_more(
            without_options(rest),
            Command::Summary {
                number,
                passes,
                options,
            },
        )
    } else {
        unless_more(rest, Command::Gen { number, passes })
    }
}

// Frames with these persisting names.
fn flying(given: LineOptions, persist: Option<List<Name>>) -> Option<Command>
    ensures { result ≡ flying given persist }
{
    let rest = LineOptions {
        depth: None,
        persist: false,
        ..without_options(given)
    };
    unless_more(
        rest,
        Command::Flight {
            options: run_options(given),
            persist: persist?,
            depth: given.depth.unwrap_or(2),
        },
    )
}

fn of_frame(rest: LineOptions, asked: FrameCommand) -> Option<Command>
    ensures { result ≡ unless_more rest (commands.Frame asked) }
{
    unless_more(rest, Command::Frame(asked))
}

fn command_of_word(word: Word, given: LineOptions, persist: Option<List<Name>>) -> Option<Command>
    ensures { result ≡ command_of_word word given persist }
{
    let options = run_options(given);
    let trace = given.trace;
    let tight = given.tight;
    let form = form_of(given.json);
    match word {
        Word::Cull => of_frame(without_json(given), FrameCommand::Cull { form }),
        Word::Place => of_frame(without_json(given), FrameCommand::Place { form }),
        Word::Bound => of_frame(without_json(given), FrameCommand::Bound { form }),
        Word::Compile => of_frame(without_tight(given), FrameCommand::Compile { tight }),
        Word::Auto => choosing(given),
        Word::Meaning => of_frame(given, FrameCommand::Meaning),
        Word::Migrate => of_frame(given, FrameCommand::Migrate),
        Word::Check => unless_more(
            without_json(given),
            Command::Submission(SubmissionCommand::Check { form }),
        ),
        Word::Gen => generating(given, given.number?),
        Word::Run => unless_more(
            without_tight(without_trace(given)),
            Command::Run {
                options,
                trace,
                tight,
            },
        ),
        Word::Exec => unless_more(without_trace(given), Command::Exec { options, trace }),
        Word::Flight => flying(given, persist),
        Word::Audit => unless_more(given, Command::Audit),
    }
}
