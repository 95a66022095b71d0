use crate::sketched::shaped;
use base::NoMemory;
use program::*;
use std::alloc::Global;
use std::process::Abort;
use std::test::Fail;
use test_sketch::sketched_program;

// Programs over two buffers, and the number of the first broken rule, 0 where none is: no queue, a value that is signalled
// twice, and as many queues as there may be.
const FAULTS: [(&str, u8); 3] = [
    ("plain:512 buffer:4:0:0 buffer:4:0:256 read:1", 1),
    (
        "plain:512 buffer:4:0:0 buffer:4:0:256 ; graphics map:0:1 signal:1 batch map:0:1 signal:1",
        9,
    ),
    (
        "plain:512 buffer:4:0:0 buffer:4:0:256 read:1 ; graphics map:0:1 signal:1 ; graphics signal:1 ; graphics ; graphics signal:1 batch signal:2",
        0,
    ),
];

fn fault_of(alloc: Global, program: Program) -> Result<u8, NoMemory> {
    match validate_program(alloc, program) {
        Ok(_shaped) => Ok(0),
        Err(ProgramError::Refused(fault, _program)) => Ok(fault.number),
        Err(ProgramError::NoMemory(_program)) => Err(NoMemory),
    }
}

#[test]
fn faults(rt: HostRuntime) -> Result<(), Fail> {
    let alloc = rt.alloc();
    for (line, number) in &FAULTS {
        let program = sketched_program(alloc, line)?.copy(alloc)?;
        assert!(&rt; fault_of(alloc, program)? == *number, "{line}");
    }
    Ok(())
}

// A shaped program may be moved to and seen by other threads.
fn crosses<T: Send + Sync>(_value: &T) {}

fn reads_second(entry: Entry) -> bool {
    match entry {
        Entry::Host { piece } => piece == 1,
        _ => false,
    }
}

// What the nodes of a program are, whose last one is the host's read of piece 1.
fn numbered(rt: &impl Abort, shaped: &ValidProgram) {
    crosses(shaped);
    assert!(rt; shaped.node_count() == 5 && shaped.program().queues.len() == 1);
    assert!(rt; reads_second(shaped.entry(4)) && shaped.first_node(1) == 4);
}

#[test]
fn nodes(rt: HostRuntime) -> Result<(), Fail> {
    let line =
        "plain:512 buffer:4:0:0 buffer:4:0:256 read:1 ; graphics map:0:1 signal:1 batch map:0:1 signal:2";
    let shaped = shaped(rt.alloc(), line)?;
    numbered(&rt, &shaped);
    assert!(&rt; shaped.into_program().pieces.len() == 2);
    Ok(())
}
