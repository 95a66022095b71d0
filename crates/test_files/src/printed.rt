//! Printed texts: that the calls find memory, and a row of each kind.

use base::{CacheMove, Event, Leg, Limit, List, MemoryRange, MoveKind, Name, NoMemory, Text};
use check_program::Hazard;
use check_state::LoadHazard;
use frame::{FrameFault, ValidFrame, validate_frame};
use program::ProgramFault;
use report::{
    FlightLine, check_text, cost_text, export_text, flight_text, frame_fault_text, hazard_text,
    program_fault_text, readback_text, trace_text,
};
use std::alloc::Global;
use std::process::Abort;
use std::test::Fail;
use test_sketch::{SketchError, sketched_frame};

// The line of a fault at a member of pass 12.
fn line(alloc: Global, number: u8, limit: Option<Limit>, key: &[u8]) -> Result<Text, NoMemory> {
    let mut location = List::new(alloc);
    location.push(Leg::Member(List::from_slice(alloc, b"passes")?))?;
    location.push(Leg::Position(12))?;
    location.push(Leg::Member(List::from_slice(alloc, key)?))?;
    let fault = FrameFault {
        number,
        limit,
        location,
    };
    frame_fault_text(alloc, &fault)
}

fn is_printed(rt: &impl Abort, text: Text, bytes: &[u8]) {
    assert_eq!(rt; text.as_slice(), bytes);
}

#[test]
fn faults(rt: HostRuntime) -> Result<(), Fail> {
    let alloc = rt.alloc();
    let root = frame_fault_text(alloc, &FrameFault::not_json(alloc))?;
    is_printed(&rt, root, b"fault F1 $\n");
    let limit = line(alloc, 4, Some(Limit::Ops), b"ops")?;
    is_printed(&rt, limit, b"fault F4 Ops $.passes[12].ops\n");
    let unprintable = line(alloc, 10, None, b" a~\x7f\x1f\n\xc3\xa4")?;
    is_printed(&rt, unprintable, b"fault F10 $.passes[12]. a~?????\n");
    Ok(())
}

fn named(rt: &impl Abort, text: &str) -> Name {
    Name::read(text.as_bytes()).expect(rt, "a name")
}

// A frame whose one export is a layer of an image.
fn layered(alloc: Global) -> Result<ValidFrame, SketchError> {
    match validate_frame(
        alloc,
        sketched_frame(alloc, "x:im/1 |g w:+im/1 clear:im/1")?,
    ) {
        Ok(good) => Ok(good),
        Err(_) => Err(SketchError::Word),
    }
}

#[test]
fn layers(rt: HostRuntime) -> Result<(), Fail> {
    let frame = layered(rt.alloc())?;
    let mut text = List::new(rt.alloc());
    if !frame.exports().is_empty() {
        export_text(&mut text, &frame, 0, &[5, 7])?;
    }
    is_printed(&rt, text, b"export im/1 2\n0507\n");
    Ok(())
}

#[test]
fn checks(rt: HostRuntime) -> Result<(), Fail> {
    let alloc = rt.alloc();
    let hazard = Hazard::Load(LoadHazard::Aliased {
        node: 4,
        piece: 0,
        other: 1,
    });
    is_printed(&rt, hazard_text(alloc, &hazard)?, b"hazard H9 4 0 1\n");
    is_printed(&rt, check_text(alloc, 20000)?, b"accepted 20000 nodes\n");
    let fault = program_fault_text(alloc, &ProgramFault::not_json(alloc))?;
    is_printed(&rt, fault, b"fault G10 $\n");
    Ok(())
}

#[test]
fn runs(rt: HostRuntime) -> Result<(), Fail> {
    let alloc = rt.alloc();
    let mut text = List::new(alloc);
    readback_text(&mut text, 1, &[5, 7])?;
    is_printed(&rt, text, b"readback 1 2\n0507\n");
    let fill = Event::Move(CacheMove {
        kind: MoveKind::Fill,
        agent: 6,
        range: MemoryRange {
            memory: 0,
            start: 256,
            len: 4,
        },
    });
    let history = [Event::Begin { node: 0 }, fill, Event::End { node: 0 }];
    let trace = trace_text(alloc, &history)?;
    is_printed(&rt, trace, b"events 3\nbegin 0\nfill 6 0 256 4\nend 0\n");
    Ok(())
}

#[test]
fn flights(rt: HostRuntime) -> Result<(), Fail> {
    let mut text = cost_text(rt.alloc(), 4, 2)?;
    flight_text(&mut text, &FlightLine::FaultOf { frame: 3 })?;
    let name = named(&rt, "c");
    flight_text(&mut text, &FlightLine::Persist { frame: 0, name })?;
    is_printed(&rt, text, b"cost 4 2\nframe 3 fault L3 0 c\n");
    Ok(())
}
