//! Answers as JSON: that the calls find memory, and a row of each kind.

use base::{Family, Leg, Limit, List, NoMemory, Text};
use check_program::Hazard;
use check_state::{LoadHazard, StateHazard};
use check_sync::{Flaw, SyncHazard};
use cli::Form;
use frame::FrameFault;
use program::ProgramFault;
use report_json::{check_told, cost_told, frame_fault_told, hazard_told, program_fault_told};
use std::alloc::Global;
use std::process::Abort;
use std::test::Fail;
use vk::Layout;

// The text is this object, and a line feed.
fn is_object(rt: &impl Abort, alloc: Global, text: Text, object: &str) -> Result<(), NoMemory> {
    let mut wanted = List::from_slice(alloc, object.as_bytes())?;
    wanted.push(b'\n')?;
    assert_eq!(rt; text.as_slice(), wanted.as_slice());
    Ok(())
}

// Each hazard, and its object.
const HAZARDS: [(Hazard, &str); 10] = [
    (
        Hazard::Stuck { queue: 1, node: 2 },
        r#"{"verdict":"hazard","hazard":"H1","queue":1,"node":2}"#,
    ),
    (
        Hazard::Sync(SyncHazard {
            first: 2,
            second: 3,
            flaw: Flaw::Unordered,
        }),
        r#"{"verdict":"hazard","hazard":"H2","nodes":[2,3]}"#,
    ),
    (
        Hazard::Sync(SyncHazard {
            first: 0,
            second: 19999,
            flaw: Flaw::NotAvailable,
        }),
        r#"{"verdict":"hazard","hazard":"H3","nodes":[0,19999]}"#,
    ),
    (
        Hazard::Sync(SyncHazard {
            first: 4,
            second: 1,
            flaw: Flaw::NotVisible,
        }),
        r#"{"verdict":"hazard","hazard":"H4","nodes":[4,1]}"#,
    ),
    (
        Hazard::State(StateHazard::BadLayout {
            node: 3,
            piece: 0,
            found: Layout::Undefined,
            wanted: Layout::TransferSrc,
        }),
        r#"{"verdict":"hazard","hazard":"H5","node":3,"piece":0,"found":"UNDEFINED","wanted":"TRANSFER_SRC_OPTIMAL"}"#,
    ),
    (
        Hazard::State(StateHazard::BadOwner {
            node: 4,
            piece: 1,
            found: Some(Family::Compute),
            wanted: Family::Graphics,
        }),
        r#"{"verdict":"hazard","hazard":"H6","node":4,"piece":1,"found":"compute","wanted":"graphics"}"#,
    ),
    (
        Hazard::State(StateHazard::BadOwner {
            node: 4,
            piece: 1,
            found: None,
            wanted: Family::Transfer,
        }),
        r#"{"verdict":"hazard","hazard":"H6","node":4,"piece":1,"found":"none","wanted":"transfer"}"#,
    ),
    (
        Hazard::State(StateHazard::Unmatched { node: 2 }),
        r#"{"verdict":"hazard","hazard":"H7","node":2}"#,
    ),
    (
        Hazard::Load(LoadHazard::Undefined { node: 3, piece: 5 }),
        r#"{"verdict":"hazard","hazard":"H8","node":3,"piece":5}"#,
    ),
    (
        Hazard::Load(LoadHazard::Aliased {
            node: 4,
            piece: 0,
            other: 1,
        }),
        r#"{"verdict":"hazard","hazard":"H9","node":4,"piece":0,"other":1}"#,
    ),
];

#[test]
fn hazards(rt: HostRuntime) -> Result<(), Fail> {
    let alloc = rt.alloc();
    for (hazard, object) in &HAZARDS {
        is_object(&rt, alloc, hazard_told(alloc, Form::Json, hazard)?, object)?;
    }
    Ok(())
}

// A fault at a member of pass 12.
fn fault(
    alloc: Global,
    number: u8,
    limit: Option<Limit>,
    key: &[u8],
) -> Result<FrameFault, NoMemory> {
    let mut location = List::new(alloc);
    location.push(Leg::Member(List::from_slice(alloc, b"passes")?))?;
    location.push(Leg::Position(12))?;
    location.push(Leg::Member(List::from_slice(alloc, key)?))?;
    Ok(FrameFault {
        number,
        limit,
        location,
    })
}

// The number of a fault, its limit, the key at which it is, and its object.
const FAULTS: [(u8, Option<Limit>, &[u8], &str); 3] = [
    (
        4,
        Some(Limit::Ops),
        b"ops",
        r#"{"verdict":"fault","fault":"F4","limit":"Ops","path":["passes",12,"ops"]}"#,
    ),
    (
        10,
        None,
        b" a~\x7f\x1f\n\xc3\xa4",
        r#"{"verdict":"fault","fault":"F10","path":["passes",12," a~?????"]}"#,
    ),
    (
        2,
        None,
        b"\"a\\b",
        r#"{"verdict":"fault","fault":"F2","path":["passes",12,"\"a\\b"]}"#,
    ),
];

#[test]
fn faults(rt: HostRuntime) -> Result<(), Fail> {
    let alloc = rt.alloc();
    for (number, limit, key, object) in &FAULTS {
        let fault = fault(alloc, *number, *limit, key)?;
        is_object(
            &rt,
            alloc,
            frame_fault_told(alloc, Form::Json, &fault)?,
            object,
        )?;
    }
    let root = program_fault_told(alloc, Form::Json, &ProgramFault::not_json(alloc))?;
    is_object(
        &rt,
        alloc,
        root,
        r#"{"verdict":"fault","fault":"G10","path":[]}"#,
    )?;
    Ok(())
}

#[test]
fn numbers(rt: HostRuntime) -> Result<(), Fail> {
    let alloc = rt.alloc();
    let sound = check_told(alloc, Form::Json, 20000)?;
    is_object(&rt, alloc, sound, r#"{"verdict":"sound","nodes":20000}"#)?;
    let cost = cost_told(alloc, Form::Json, 4, 2)?;
    is_object(&rt, alloc, cost, r#"{"given":4,"chosen":2}"#)?;
    Ok(())
}

// Where no JSON is asked for, lines are told.
#[test]
fn lines(rt: HostRuntime) -> Result<(), Fail> {
    let alloc = rt.alloc();
    let sound = check_told(alloc, Form::Line, 6)?;
    is_object(&rt, alloc, sound, "accepted 6 nodes")?;
    let hazard = Hazard::State(StateHazard::Unmatched { node: 2 });
    is_object(
        &rt,
        alloc,
        hazard_told(alloc, Form::Line, &hazard)?,
        "hazard H7 2",
    )?;
    let cost = cost_told(alloc, Form::Line, 4, 2)?;
    is_object(&rt, alloc, cost, "cost 4 2")?;
    Ok(())
}
