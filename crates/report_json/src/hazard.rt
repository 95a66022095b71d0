//! What `check` answers.

ghost use Rattle.std.specs.Prelude.{◌≡◌, ◌∷◌, [], ◌++◌, OnOk, IfOk, codes};
ghost use Rattle.report.specs.Hazards.{owner_name};
ghost use Rattle.report_json.specs.Json.{later, member, pair};
ghost use Rattle.report_json.specs.Verdicts.{between, check_json, flaw_name, hazard_json, hazard_members, load_members, mismatch, node_of, numbered, piece_of, state_members, stuck_members};

use crate::object::{end_object, first_string, next_member, next_number, next_string};
use base::{Family, List, NoMemory, Text};
use base_text::Lines;
use check_program::Hazard;
use check_state::{LoadHazard, StateHazard};
use check_sync::{Flaw, SyncHazard};
use std::alloc::Global;

fn owner_name(owner: Option<Family>) -> &'static [u8]
    ensures { result.now ≡ owner_name owner }
{
    match owner {
        Some(family) => family.name().as_bytes(),
        None => b"none",
    }
}

// A hazard of a node, with this number.
fn at_node(text: &mut Text, name: &[u8], node: u32) -> Result<(), NoMemory>
    ensures { OnOk result (text.new ≡ text.old ++ later (numbered name.now ∷ node_of node ∷ [])) }
{
    next_string(text, b"hazard", name)?;
    next_number(text, b"node", u64::from(node))
}

// One of a node and a piece.
fn at_piece(text: &mut Text, name: &[u8], node: u32, piece: u32) -> Result<(), NoMemory>
    ensures { OnOk result (text.new ≡ text.old ++ later (numbered name.now ∷ node_of node ∷ piece_of piece ∷ [])) }
{
    at_node(text, name, node)?;
    next_number(text, b"piece", u64::from(piece))
}

fn add_pair(text: &mut Text, first: u32, second: u32) -> Result<(), NoMemory>
    ensures { OnOk result (text.new ≡ text.old ++ pair first second) }
{
    text.word(b"[")?;
    text.number(u64::from(first))?;
    text.word(b",")?;
    text.number(u64::from(second))?;
    text.word(b"]")
}

#[tactic(auto, unfolding(crate::specs::Json::member))]
fn next_nodes(text: &mut Text, first: u32, second: u32) -> Result<(), NoMemory>
    ensures { OnOk result (text.new ≡ text.old ++ codes "," ++ member (codes "nodes") (pair first second)) }
{
    next_member(text, b"nodes")?;
    add_pair(text, first, second)
}

// One of two nodes.
fn add_between(text: &mut Text, name: &[u8], first: u32, second: u32) -> Result<(), NoMemory>
    ensures { OnOk result (text.new ≡ text.old ++ later (between name.now first second)) }
{
    next_string(text, b"hazard", name)?;
    next_nodes(text, first, second)
}

// One of a piece that is in another state than the one wanted.
fn add_mismatch(
    text: &mut Text,
    name: &[u8],
    node: u32,
    piece: u32,
    found: &[u8],
    wanted: &[u8],
) -> Result<(), NoMemory>
    ensures { OnOk result (text.new ≡ text.old ++ later (mismatch name.now node piece found.now wanted.now)) }
{
    at_piece(text, name, node, piece)?;
    next_string(text, b"found", found)?;
    next_string(text, b"wanted", wanted)
}

fn flaw_name(flaw: Flaw) -> &'static [u8]
    ensures { result.now ≡ flaw_name flaw }
{
    match flaw {
        Flaw::Unordered => b"H2",
        Flaw::NotAvailable => b"H3",
        Flaw::NotVisible => b"H4",
    }
}

fn add_state(text: &mut Text, state_hazard: StateHazard) -> Result<(), NoMemory>
    ensures { OnOk result (text.new ≡ text.old ++ later (state_members state_hazard)) }
{
    match state_hazard {
        StateHazard::BadLayout {
            node,
            piece,
            found,
            wanted,
        } => add_mismatch(
            text,
            b"H5",
            node,
            piece,
            found.name().as_bytes(),
            wanted.name().as_bytes(),
        ),
        StateHazard::BadOwner {
            node,
            piece,
            found,
            wanted,
        } => add_mismatch(
            text,
            b"H6",
            node,
            piece,
            owner_name(found),
            wanted.name().as_bytes(),
        ),
        StateHazard::Unmatched { node } => at_node(text, b"H7", node),
    }
}

fn add_load(text: &mut Text, load_hazard: LoadHazard) -> Result<(), NoMemory>
    ensures { OnOk result (text.new ≡ text.old ++ later (load_members load_hazard)) }
{
    match load_hazard {
        LoadHazard::Undefined { node, piece } => at_piece(text, b"H8", node, piece),
        LoadHazard::Aliased { node, piece, other } => {
            at_piece(text, b"H9", node, piece)?;
            next_number(text, b"other", u64::from(other))
        }
    }
}

// The queue that is stuck, and its next node.
fn add_stuck(text: &mut Text, queue: u32, node: u32) -> Result<(), NoMemory>
    ensures { OnOk result (text.new ≡ text.old ++ later (stuck_members queue node)) }
{
    next_string(text, b"hazard", b"H1")?;
    next_number(text, b"queue", u64::from(queue))?;
    next_number(text, b"node", u64::from(node))
}

fn add_hazard(text: &mut Text, hazard: &Hazard) -> Result<(), NoMemory>
    ensures { OnOk result (text.new ≡ text.old ++ later (hazard_members hazard.now)) }
{
    match *hazard {
        Hazard::Stuck { queue, node } => add_stuck(text, queue, node),
        Hazard::Sync(
            SyncHazard {
                first,
                second,
                flaw,
            },
        ) => add_between(text, flaw_name(flaw), first, second),
        Hazard::State(state_hazard) => add_state(text, state_hazard),
        Hazard::Load(load_hazard) => add_load(text, load_hazard),
    }
}

/// The object that names the first hazard of a program, as `{"verdict":"hazard","hazard":"H2","nodes":[0,1]}`.
pub(crate) fn hazard_json(alloc: Global, hazard: &Hazard) -> Result<Text, NoMemory>
    ensures { IfOk result (λ text. text ≡ hazard_json hazard.now) }
{
    let mut text = List::new(alloc);
    first_string(&mut text, b"verdict", b"hazard")?;
    add_hazard(&mut text, hazard)?;
    end_object(&mut text)?;
    Ok(text)
}

/// The object of a program without a hazard.
pub(crate) fn check_json(alloc: Global, nodes: u32) -> Result<Text, NoMemory>
    ensures { IfOk result (λ text. text ≡ check_json nodes) }
{
    let mut text = List::new(alloc);
    first_string(&mut text, b"verdict", b"sound")?;
    next_number(&mut text, b"nodes", u64::from(nodes))?;
    end_object(&mut text)?;
    Ok(text)
}
