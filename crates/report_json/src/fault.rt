//! Faults of files.

ghost use Rattle.std.specs.Prelude.{◌≡◌, ◌++◌, OnOk, IfOk, codes};
ghost use Rattle.report_json.specs.Faults.{fault_json, frame_fault_json, path_json, place_members, program_fault_json};
ghost use Rattle.report_json.specs.Json.{later, member, number, string};

use crate::object::{end_object, first_string, next_member, next_string};
use crate::path::add_path;
use base::{Leg, Limit, List, NoMemory, Text};
use base_text::Lines;
use frame::FrameFault;
use program::ProgramFault;
use std::alloc::Global;

#[tactic(auto, unfolding(crate::specs::Json::member, crate::specs::Json::string))]
fn add_number(text: &mut Text, letter: &[u8], fault: u8) -> Result<(), NoMemory>
    ensures { OnOk result (text.new ≡ text.old ++ codes "," ++ member (codes "fault") (string (letter.now ++ number fault))) }
{
    next_member(text, b"fault")?;
    text.word(b"\"")?;
    text.word(letter)?;
    text.number(u64::from(fault))?;
    text.word(b"\"")
}

#[tactic(auto, unfolding(crate::specs::Json::member))]
fn next_path(text: &mut Text, location: &[Leg]) -> Result<(), NoMemory>
    ensures { OnOk result (text.new ≡ text.old ++ codes "," ++ member (codes "path") (path_json location.now)) }
{
    next_member(text, b"path")?;
    add_path(text, location)
}

// The limit, where there is one, and the path.
fn add_place(text: &mut Text, limit: Option<Limit>, location: &[Leg]) -> Result<(), NoMemory>
    ensures { OnOk result (text.new ≡ text.old ++ later (place_members limit location.now)) }
{
    match limit {
        Some(limit) => {
            next_string(text, b"limit", limit.name().as_bytes())?;
            next_path(text, location)
        }
        None => next_path(text, location),
    }
}

// The object of a fault with this letter and number.
fn fault_json(
    alloc: Global,
    letter: &[u8],
    fault: u8,
    limit: Option<Limit>,
    location: &[Leg],
) -> Result<Text, NoMemory>
    ensures { IfOk result (λ text. text ≡ fault_json letter.now fault limit location.now) }
{
    let mut text = List::new(alloc);
    first_string(&mut text, b"verdict", b"fault")?;
    add_number(&mut text, letter, fault)?;
    add_place(&mut text, limit, location)?;
    end_object(&mut text)?;
    Ok(text)
}

/// The object that names the first fault of a frame file, as `{"verdict":"fault","fault":"F3","path":["format"]}`.
pub(crate) fn frame_fault_json(alloc: Global, fault: &FrameFault) -> Result<Text, NoMemory>
    ensures { IfOk result (λ text. text ≡ frame_fault_json fault.now) }
{
    fault_json(alloc, b"F", fault.number, fault.limit, &fault.location)
}

/// The object that names the first fault of a submission file, as
/// `{"verdict":"fault","fault":"G1","limit":"Queues","path":["queues"]}`.
pub(crate) fn program_fault_json(alloc: Global, fault: &ProgramFault) -> Result<Text, NoMemory>
    ensures { IfOk result (λ text. text ≡ program_fault_json fault.now) }
{
    fault_json(alloc, b"G", fault.number, fault.limit, &fault.location)
}
