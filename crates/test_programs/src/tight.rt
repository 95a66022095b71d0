use crate::sketched::shaped;
use base::{List, NoMemory};
use check_program::{CheckError, Checked, check};
use check_tighten::tighten;
use program::{Entry, ValidProgram};
use std::alloc::Global;
use std::test::Fail;
use test_sketch::SketchError;
use vk::Stages;

// Three graphics queues: a fill, a copy of what it filled, and a copy back over it. The last queue's first wait is not needed,
// since its second one is for a queue that waited for the same.
const CHAINED: &str =
    "plain:256 plain:256 buffer:4:0:0 buffer:4:1:0 ; graphics fill:0:4 signal:1 ; graphics wait:0:1 copy:0:1:4 signal:1 ; graphics wait:0:1 wait:1:1 copy:1:0:4 signal:1";

// The stages of each node of the tightened program that is a wait.
const TIGHTENED: [Option<Stages>; 8] = [
    None,
    None,
    Some(Stages::COPY),
    None,
    None,
    Some(Stages::COPY),
    None,
    None,
];

fn checked(alloc: Global, program: ValidProgram) -> Result<Checked, SketchError> {
    match check(alloc, program) {
        Ok(checked) => Ok(checked),
        Err(CheckError::Refused(_, _)) => Err(SketchError::Word),
        Err(CheckError::NoMemory) => Err(SketchError::NoMemory),
    }
}

// For each node the stages of a wait, or none.
fn waiting(alloc: Global, program: &Checked) -> Result<List<Option<Stages>>, NoMemory> {
    let shaped = program.shaped();
    let mut stages = List::new(alloc);
    for n in 0..shaped.node_count() {
        stages.push(match shaped.entry(n) {
            Entry::Wait { wait, .. } => Some(wait.stages),
            _ => None,
        })?;
    }
    Ok(stages)
}

#[test]
fn tightened(rt: HostRuntime) -> Result<(), Fail> {
    let alloc = rt.alloc();
    let given = checked(alloc, shaped(alloc, CHAINED)?)?;
    assert!(&rt; given.shaped().node_count() == 9);
    let tight = tighten(alloc, given)?;
    assert!(&rt; waiting(alloc, &tight)?.as_slice() == TIGHTENED.as_slice());
    Ok(())
}
