use check_order::Kind;
use device_nodes::Control;
use program::{Program, ValidProgram, validate_program};
use std::alloc::Global;
use std::test::Fail;
use test_sketch::{SketchError, sketched_program};

// A program, what its first two queues have ready, and the first one after the second has gone on once, how far the second then
// has signalled, and whether all nodes go on, each time the least ready one of the first queue that has one.
struct Row {
    line: &'static str,
    ready: [Option<u32>; 2],
    then: Option<u32>,
    counter: u64,
    whole: bool,
}

const ROWS: [Row; 3] = [
    Row {
        line: "plain:16 buffer:16:0:0 read:0 ; graphics fill:0:16 signal:1",
        ready: [Some(0), None],
        then: Some(0),
        counter: 0,
        whole: true,
    },
    // A wait goes on after the signal that meets it, and not before.
    Row {
        line: "plain:16 buffer:16:0:0 ; graphics wait:1:1 fill:0:16 signal:1 ; compute signal:1",
        ready: [None, Some(3)],
        then: Some(0),
        counter: 1,
        whole: true,
    },
    Row {
        line: "; graphics wait:1:1 signal:1 ; compute wait:0:1 signal:1",
        ready: [None, None],
        then: None,
        counter: 0,
        whole: false,
    },
];

fn shaped(alloc: Global, program: Program) -> Result<ValidProgram, SketchError> {
    validate_program(alloc, program).map_err(|_| SketchError::Word)
}

fn control(alloc: Global, line: &str) -> Result<Control, Fail> {
    let shaped = shaped(alloc, sketched_program(alloc, line)?)?;
    Ok(Control::new(alloc, &shaped)?)
}

// What becomes of the next node of a queue, if one is ready.
fn go(control: &mut Control, queue: u32) {
    if let Some(node) = control.pick(queue) {
        match control.view().node(node).kind {
            Kind::Command => {
                control.begin(node);
                if control.is_begun(node) {
                    control.end(node);
                }
            }
            Kind::Host => control.host(node),
            _ => control.sync(node),
        }
    }
}

fn completes(control: &mut Control) -> bool {
    for _turn in 0..control.view().count() {
        for queue in 0..3 {
            go(control, queue);
        }
    }
    control.complete()
}

fn begins(control: &mut Control, row: &Row) -> bool {
    let (first, second, then) = (row.ready[0], row.ready[1], row.then);
    if control.pick(0) != first || control.pick(1) != second {
        return false;
    }
    go(control, 1);
    control.pick(0) == then && control.counter(1) == row.counter
}

// So that one function lets the control go.
fn holds(alloc: Global, row: &Row) -> Result<bool, Fail> {
    let mut control = control(alloc, row.line)?;
    Ok(begins(&mut control, row) && completes(&mut control) == row.whole)
}

#[test]
fn runs(rt: HostRuntime) -> Result<(), Fail> {
    for row in &ROWS {
        assert!(&rt; holds(rt.alloc(), row)?, "{}", row.line);
    }
    Ok(())
}
