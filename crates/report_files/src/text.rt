//! Several files, one after another.

ghost use Rattle.std.specs.Prelude.{◌≡◌, ◌++◌, IfOk, OnOk};
ghost use Rattle.std.specs.List.{flat_map};
ghost use Rattle.report_files.specs.Files.{file_line, files_text};

use crate::FileReport;
use crate::object::add_object_of_files;
use base::{List, NoMemory, Text};
use base_text::Lines;
use cli::Form;
use std::alloc::Global;

// The answer with the name before it. An answer is one line.
fn add_line(text: &mut Text, file: &FileReport) -> Result<(), NoMemory>
    ensures { OnOk result (text.new ≡ text.old ++ file_line file.now) }
{
    match &file.answer {
        Some(answer) => {
            text.word(&file.name)?;
            text.word(b": ")?;
            text.word(answer)
        }
        None => Ok(()),
    }
}

fn add_lines(text: &mut Text, files: &[FileReport]) -> Result<(), NoMemory>
    ensures { OnOk result (text.new ≡ text.old ++ flat_map file_line files.now) }
{
    for file in files {
        add_line(text, file)?;
    }
    Ok(())
}

/// What is printed of these files: a line of each that was read, or one JSON object with all.
pub fn files_text(alloc: Global, form: Form, files: &[FileReport]) -> Result<Text, NoMemory>
    ensures { IfOk result (λ text. text ≡ files_text form files.now) }
{
    let mut text = List::new(alloc);
    match form {
        Form::Line => add_lines(&mut text, files)?,
        Form::Json => add_object_of_files(&mut text, files)?,
    }
    Ok(text)
}
