use crate::sketched::shaped;
use check_program::{CheckError, Hazard, check, sound};
use check_sync::{Flaw, SyncHazard};
use program::ValidProgram;
use std::alloc::Global;
use std::test::Fail;
use test_sketch::SketchError;

// Programs, and their hazards.
const ROWS: [(&str, Option<Hazard>); 5] = [
    ("; graphics signal:1", None),
    (
        "; graphics wait:0:1 signal:1",
        Some(Hazard::Stuck { queue: 0, node: 0 }),
    ),
    // Two fills: with a barrier between them, without one, and with one that makes nothing available.
    (
        "plain:16 buffer:16:0:0 ; graphics fill:0:16 all:CLEAR,TRANSFER_WRITE>CLEAR,TRANSFER_WRITE fill:0:16",
        None,
    ),
    (
        "plain:16 buffer:16:0:0 ; graphics fill:0:16 fill:0:16",
        Some(Hazard::Sync(SyncHazard {
            first: 0,
            second: 1,
            flaw: Flaw::Unordered,
        })),
    ),
    (
        "plain:16 buffer:16:0:0 ; graphics fill:0:16 all:CLEAR>CLEAR,TRANSFER_WRITE fill:0:16",
        Some(Hazard::Sync(SyncHazard {
            first: 0,
            second: 2,
            flaw: Flaw::NotAvailable,
        })),
    ),
];

fn is_sound(alloc: Global, line: &str) -> Result<bool, SketchError> {
    Ok(sound(alloc, &shaped(alloc, line)?)?)
}

// The hazard of a program, or that of none.
fn hazard(alloc: Global, program: ValidProgram) -> Option<Hazard> {
    match check(alloc, program) {
        Err(CheckError::Refused(hazard, _)) => Some(hazard),
        _ => None,
    }
}

#[test]
fn hazards(rt: HostRuntime) -> Result<(), Fail> {
    let alloc = rt.alloc();
    for (line, wanted) in &ROWS {
        let is_sound = is_sound(alloc, line)?;
        let found = hazard(alloc, shaped(alloc, line)?);
        assert!(&rt; is_sound == wanted.is_none() && found == *wanted, "{line}");
    }
    Ok(())
}
