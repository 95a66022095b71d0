//! Several files as one JSON object.

ghost use Rattle.std.specs.Prelude.{◌≡◌, ◌++◌, ◌-◌, OnOk, codes, length, take};
ghost use Rattle.report_files.specs.Files.{answer_members, file_at, object_of_file, object_of_files};
ghost use Rattle.report_json.specs.Json.{array, entries, later, member, string, escaped};
ghost use Rattle.std.specs.List.{flat_map};

use crate::FileReport;
use base::{NoMemory, Text};
use base_text::Lines;
use report_json::{add_comma, add_text, end_object, first_member, next_member, next_number};

// All but the line feed.
fn without_end(answer: &[u8]) -> &[u8]
    ensures { result.now ≡ take (length answer.now - 1) answer.now }
{
    &answer[..answer.len().saturating_sub(1)]
}

#[tactic(auto, unfolding(report_json::specs::Json::member, report_json::specs::Json::string))]
fn first_name(text: &mut Text, name: &[u8]) -> Result<(), NoMemory>
    ensures { OnOk result (text.new ≡ text.old ++ codes "{" ++ member (codes "file") (string (flat_map escaped name.now))) }
{
    first_member(text, b"file")?;
    text.word(b"\"")?;
    add_text(text, name)?;
    text.word(b"\"")
}

#[tactic(auto, unfolding(report_json::specs::Json::member))]
fn add_answer(text: &mut Text, answer: &Option<Text>) -> Result<(), NoMemory>
    ensures { OnOk result (text.new ≡ text.old ++ later (answer_members answer.now)) }
{
    match answer {
        Some(answer) => {
            next_member(text, b"answer")?;
            text.word(without_end(answer))
        }
        None => Ok(()),
    }
}

fn add_object(text: &mut Text, file: &FileReport) -> Result<(), NoMemory>
    ensures { OnOk result (text.new ≡ text.old ++ object_of_file file.now) }
{
    first_name(text, &file.name)?;
    next_number(text, b"status", u64::from(file.status))?;
    add_answer(text, &file.answer)?;
    text.word(b"}")
}

#[tactic(auto, using(report_json::proofs::Entries::one_more))]
fn add_objects(text: &mut Text, files: &[FileReport]) -> Result<(), NoMemory>
    ensures { OnOk result (text.new ≡ text.old ++ entries file_at 0 files.now) }
{
    for (k, file) in files.iter().enumerate() {
        add_comma(text, k)?;
        add_object(text, file)?;
    }
    Ok(())
}

/// Adds one object with all files, and a line feed.
#[tactic(auto, unfolding(report_json::specs::Json::member))]
pub(crate) fn add_object_of_files(text: &mut Text, files: &[FileReport]) -> Result<(), NoMemory>
    ensures { OnOk result (text.new ≡ text.old ++ object_of_files files.now) }
{
    first_member(text, b"files")?;
    text.word(b"[")?;
    add_objects(text, files)?;
    text.word(b"]")?;
    end_object(text)
}
