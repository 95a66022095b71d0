//! The files of a line.

ghost use Rattle.std.specs.Prelude.{◌≡◌, IfOk, map, option_map};
ghost use Rattle.clap.specs.Words.{found_of, rows_of};
ghost use Rattle.cli.specs.Files.{files_in, takes_files, words_in};

use crate::matching::FILE;
use crate::{Command, FileName};
use base::{List, NoMemory};
use clap::ArgMatches;
use std::alloc::Global;

/// Whether a command may be given so many files.
pub(crate) fn takes_files(command: &Command, count: usize) -> bool
    ensures { result ≡ takes_files command.now count }
{
    match command {
        Command::Submission(_) => true,
        Command::Frame(_)
        | Command::Run { .. }
        | Command::Exec { .. }
        | Command::Flight { .. }
        | Command::Audit => count <= 1,
        Command::Gen { .. } | Command::Summary { .. } => count == 0,
    }
}

fn named(alloc: Global, words: &[&str]) -> Result<List<FileName>, NoMemory>
    ensures { IfOk result (λ files. files ≡ map (λ word. word.now) words.now) }
{
    let mut files = List::new(alloc);
    for word in words {
        files.push(FileName::new(alloc, word)?)?;
    }
    Ok(files)
}

fn words_in<'w, 'a>(matches: &'w ArgMatches<'a>) -> Option<&'w [&'a str]>
    ensures { option_map (λ words. map (λ word. word.now) words.now) result ≡ words_in (rows_of (found_of matches.entry.now)) }
{
    matches.get_raw(FILE)
}

/// The words behind the command's own.
pub(crate) fn files_in(alloc: Global, matches: &ArgMatches<'_>) -> Result<List<FileName>, NoMemory>
    ensures { IfOk result (λ files. files ≡ files_in (rows_of (found_of matches.now))) }
{
    match words_in(matches) {
        Some(words) => named(alloc, words),
        None => Ok(List::new(alloc)),
    }
}
