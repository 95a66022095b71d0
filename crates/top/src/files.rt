//! Several files, each answered by itself.

ghost use Rattle.std.specs.Prelude.{◌≡◌, IfOk, Some, false};
ghost use Rattle.answer.specs.AtRest.{needs_device};
ghost use Rattle.cli.specs.Commands.{IsBounded};
ghost use Rattle.top.specs.Files.{AreAnswered, EndsFiles, IsAnswered, greatest};
ghost use Rattle.top.specs.Internal.Served.{IsAtRest};

use crate::Status;
use crate::opener::Opener;
use crate::output::write_text;
use crate::rest::answer_input;
use answer::{Answer, form_of};
use base::{List, NoMemory};
use base_io::{Sink, Source};
use cli::{Command, FileName};
use report_files::{FileReport, files_text};
use std::alloc::Global;

// What a file came to.
fn answer_file<I: Source>(
    alloc: Global,
    command: &Command,
    name: &FileName,
    input: &mut I,
) -> Result<FileReport, NoMemory>
    requires { IsAtRest command.now }
    ensures name { IfOk result (λ file. file.name ≡ name.now) }
    ensures answered { IfOk result (IsAnswered command.now) }
{
    let name = List::from_slice(alloc, name.as_str().as_bytes())?;
    match answer_input(alloc, command, input) {
        Ok(Answer { status, text }) => Ok(FileReport {
            name,
            status: Status::from(status).number(),
            answer: Some(text),
        }),
        Err(Status::ReadFault) => Ok(FileReport {
            name,
            status: Status::ReadFault.number(),
            answer: None,
        }),
        Err(_) => Err(NoMemory),
    }
}

#[tactic(auto, using(crate::proofs::FileLemmas::one_more))]
fn answer_files<P: Opener>(
    alloc: Global,
    command: &Command,
    names: &[FileName],
    opener: &mut P,
) -> Result<Vec<FileReport>, NoMemory>
    requires { IsAtRest command.now }
    ensures { IfOk result (λ files. AreAnswered command.now names.now files.items) }
{
    let mut files = Vec::new(alloc);
    for name in names {
        let mut input = opener.open(name);
        let file = answer_file(alloc, command, name, &mut input)?;
        if file.answer.is_none() {
            opener.unread(name);
        }
        files.push(file)?;
    }
    Ok(files)
}

fn greatest(files: &[FileReport]) -> u8
    ensures { result ≡ greatest files.now }
{
    let mut most = 0;
    for file in files {
        if most < file.status {
            most = file.status;
        }
    }
    most
}

/// Answers several files, each by itself, with a command that needs no device: opens them one after another, writes what is
/// printed of all of them, and answers the greatest number of their statuses. A file that cannot be read has a read fault, and
/// no text. Where memory runs out, nothing is written.
pub fn framec_files<P: Opener, O: Sink>(
    alloc: Global,
    command: &Command,
    names: &[FileName],
    opener: &mut P,
    output: &mut O,
) -> u8
    requires rests { needs_device (Some command.now) ≡ false }
    requires bounded { IsBounded command.now }
    ensures files { EndsFiles command.now names.now (O.taken output.old) (O.taken output.new) result }
{
    let Ok(files) = answer_files(alloc, command, names, opener) else {
        return Status::NoMemory.number();
    };
    let Ok(text) = files_text(alloc, form_of(command), &files) else {
        return Status::NoMemory.number();
    };
    if write_text(output, &text) {
        greatest(&files)
    } else {
        Status::WriteFault.number()
    }
}
