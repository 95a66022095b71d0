//! What `check` answers.

ghost use Rattle.std.specs.Prelude.{◌≡◌, ◌++◌, OnOk, IfOk};
ghost use Rattle.report.specs.Hazards.{owner_name, field, number_field, two_numbers, flaw_number, state_number, load_number, hazard_number, state_fields, load_fields, hazard_fields, hazard_text, check_text};

use base::{Family, List, NoMemory, Text};
use base_text::Lines;
use check_program::Hazard;
use check_state::{LoadHazard, StateHazard};
use check_sync::{Flaw, SyncHazard};
use std::alloc::Global;

fn owner_name(owner: Option<Family>) -> &'static [u8]
    ensures { result.now ≡ owner_name owner }
{
    match owner {
        Some(family) => family.name().as_bytes(),
        None => b"none",
    }
}

fn flaw_number(flaw: Flaw) -> u64
    ensures { result ≡ flaw_number flaw }
{
    match flaw {
        Flaw::Unordered => 2,
        Flaw::NotAvailable => 3,
        Flaw::NotVisible => 4,
    }
}

fn state_number(state_hazard: StateHazard) -> u64
    ensures { result ≡ state_number state_hazard }
{
    match state_hazard {
        StateHazard::BadLayout { .. } => 5,
        StateHazard::BadOwner { .. } => 6,
        StateHazard::Unmatched { .. } => 7,
    }
}

fn load_number(load_hazard: LoadHazard) -> u64
    ensures { result ≡ load_number load_hazard }
{
    match load_hazard {
        LoadHazard::Undefined { .. } => 8,
        LoadHazard::Aliased { .. } => 9,
    }
}

fn hazard_number(hazard: &Hazard) -> u64
    ensures { result ≡ hazard_number hazard.now }
{
    match *hazard {
        Hazard::Stuck { .. } => 1,
        Hazard::Sync(sync_hazard) => flaw_number(sync_hazard.flaw),
        Hazard::State(state_hazard) => state_number(state_hazard),
        Hazard::Load(load_hazard) => load_number(load_hazard),
    }
}

fn add_field(text: &mut Text, word: &[u8]) -> Result<(), NoMemory>
    ensures { OnOk result (text.new ≡ text.old ++ field word.now) }
{
    text.word(b" ")?;
    text.word(word)
}

pub(crate) fn add_number(text: &mut Text, number: u32) -> Result<(), NoMemory>
    ensures { OnOk result (text.new ≡ text.old ++ number_field number) }
{
    text.word(b" ")?;
    text.number(u64::from(number))
}

pub(crate) fn add_numbers(text: &mut Text, first: u32, second: u32) -> Result<(), NoMemory>
    ensures { OnOk result (text.new ≡ text.old ++ two_numbers first second) }
{
    add_number(text, first)?;
    add_number(text, second)
}

// Two numbers and two words.
fn add_mismatch(
    text: &mut Text,
    node: u32,
    piece: u32,
    found: &[u8],
    wanted: &[u8],
) -> Result<(), NoMemory>
    ensures { OnOk result (text.new ≡ text.old ++ two_numbers node piece ++ field found.now ++ field wanted.now) }
{
    add_numbers(text, node, piece)?;
    add_field(text, found)?;
    add_field(text, wanted)
}

fn add_state_fields(text: &mut Text, state_hazard: StateHazard) -> Result<(), NoMemory>
    ensures { OnOk result (text.new ≡ text.old ++ state_fields state_hazard) }
{
    match state_hazard {
        StateHazard::BadLayout {
            node,
            piece,
            found,
            wanted,
        } => add_mismatch(
            text,
            node,
            piece,
            found.name().as_bytes(),
            wanted.name().as_bytes(),
        ),
        StateHazard::BadOwner {
            node,
            piece,
            found,
            wanted,
        } => add_mismatch(
            text,
            node,
            piece,
            owner_name(found),
            wanted.name().as_bytes(),
        ),
        StateHazard::Unmatched { node } => add_number(text, node),
    }
}

fn add_load_fields(text: &mut Text, load_hazard: LoadHazard) -> Result<(), NoMemory>
    ensures { OnOk result (text.new ≡ text.old ++ load_fields load_hazard) }
{
    match load_hazard {
        LoadHazard::Undefined { node, piece } => add_numbers(text, node, piece),
        LoadHazard::Aliased { node, piece, other } => {
            add_numbers(text, node, piece)?;
            add_number(text, other)
        }
    }
}

fn add_fields(text: &mut Text, hazard: &Hazard) -> Result<(), NoMemory>
    ensures { OnOk result (text.new ≡ text.old ++ hazard_fields hazard.now) }
{
    match *hazard {
        Hazard::Stuck { queue, node } => add_numbers(text, queue, node),
        Hazard::Sync(SyncHazard { first, second, .. }) => add_numbers(text, first, second),
        Hazard::State(state_hazard) => add_state_fields(text, state_hazard),
        Hazard::Load(load_hazard) => add_load_fields(text, load_hazard),
    }
}

/// The line that names the first hazard of a program, as `hazard H2 0 1`.
pub fn hazard_text(alloc: Global, hazard: &Hazard) -> Result<Text, NoMemory>
    ensures { IfOk result (λ text. text ≡ hazard_text hazard.now) }
{
    let mut text = List::new(alloc);
    text.word(b"hazard H")?;
    text.number(hazard_number(hazard))?;
    add_fields(&mut text, hazard)?;
    text.end_line()?;
    Ok(text)
}

/// The line of a program without a hazard.
pub fn check_text(alloc: Global, nodes: u32) -> Result<Text, NoMemory>
    ensures { IfOk result (λ text. text ≡ check_text nodes) }
{
    let mut text = List::new(alloc);
    text.word(b"accepted ")?;
    text.number(u64::from(nodes))?;
    text.word(b" nodes\n")?;
    Ok(text)
}
