//! Commands that the workers have in hand at the same time.

use base::NoMemory;
use base_io::IdleGate;
use std::alloc::Global;
use std::str;
use std::sync::Wait;
use std::test::Fail;
use std::thread::Threads;
use test_calls::{Answer, Status, answer_of};
use test_gate::Meeting;

// A ramp on each of two queues, which need nothing of each other: nodes 0 and 5 of what they are compiled to.
const FRAME: &str =
    r#"{"format":1,"queues":[{"name":"g","family":"graphics"},{"name":"c","family":"compute"}],"resources":[{"name":"x","buffer":16},{"name":"y","buffer":16}],"passes":[{"name":"one","queue":"g","writes":[{"new":"x"}],"ops":[{"op":"ramp","dst":"x","base":0,"dx":1,"dy":0}]},{"name":"two","queue":"c","writes":[{"new":"y"}],"ops":[{"op":"ramp","dst":"y","base":0,"dx":1,"dy":0}]}],"exports":["x","y"]}"#;

// The same with a third one: nodes 0, 5 and 10.
const THREE: &str =
    r#"{"format":1,"queues":[{"name":"g","family":"graphics"},{"name":"c","family":"compute"},{"name":"d","family":"compute"}],"resources":[{"name":"x","buffer":16},{"name":"y","buffer":16},{"name":"z","buffer":16}],"passes":[{"name":"one","queue":"g","writes":[{"new":"x"}],"ops":[{"op":"ramp","dst":"x","base":0,"dx":1,"dy":0}]},{"name":"two","queue":"c","writes":[{"new":"y"}],"ops":[{"op":"ramp","dst":"y","base":0,"dx":1,"dy":0}]},{"name":"three","queue":"d","writes":[{"new":"z"}],"ops":[{"op":"ramp","dst":"z","base":0,"dx":1,"dy":0}]}],"exports":["x","y","z"]}"#;

// Whether both commands are begun before either ends.
fn begin_first(trace: &str) -> bool {
    let (Some(one), Some(other)) = (trace.find("begin 0\n"), trace.find("begin 5\n")) else {
        return false;
    };
    let (Some(end), Some(other_end)) = (trace.find("\nend 0\n"), trace.find("\nend 5\n")) else {
        return false;
    };
    one.max(other) < end.min(other_end)
}

fn is_met(trace: &[u8]) -> bool {
    match str::from_utf8(trace) {
        Ok(text) => begin_first(text),
        Err(_) => false,
    }
}

// What is given where the commands meet in a gate, before they are computed and again afterwards.
fn met<R: Threads + Wait + Sync>(
    rt: &R,
    alloc: Global,
    line: &str,
    file: &[u8],
    gate: &Meeting,
) -> Result<Option<Answer>, NoMemory> {
    let answer = answer_of(rt, alloc, line, file, gate)?;
    if answer.status == Some(Status::Done) && gate.took_place() {
        Ok(Some(answer))
    } else {
        Ok(None)
    }
}

// Whether they meet, and the printed trace shows it.
fn meet<R: Threads + Wait + Sync>(
    rt: &R,
    alloc: Global,
    line: &str,
    file: &[u8],
) -> Result<bool, NoMemory> {
    match met(rt, alloc, line, file, &Meeting::new(0, 5))? {
        Some(answer) => Ok(is_met(answer.text())),
        None => Ok(false),
    }
}

const RUNS: [&str; 3] = ["run --trace", "run --trace --tend 3", "run --trace --tight"];

#[test]
fn run_side_by_side(rt: HostRuntime) -> Result<(), Fail> {
    let alloc = rt.alloc();
    for line in &RUNS {
        assert!(&rt; meet(&rt, alloc, line, FRAME.as_bytes())?, "{line}");
    }
    Ok(())
}

// Whether they meet where what the frame is compiled to is executed.
fn compiled_meet<R: Threads + Wait + Sync>(
    rt: &R,
    alloc: Global,
    line: &str,
) -> Result<bool, NoMemory> {
    let compiled = answer_of(rt, alloc, "compile", FRAME.as_bytes(), &IdleGate)?;
    meet(rt, alloc, line, compiled.text())
}

const EXECS: [&str; 2] = ["exec --trace", "exec --trace --tend 3"];

#[test]
fn exec_side_by_side(rt: HostRuntime) -> Result<(), Fail> {
    let alloc = rt.alloc();
    for line in &EXECS {
        assert!(&rt; compiled_meet(&rt, alloc, line)?, "{line}");
    }
    Ok(())
}

// Whether two commands meet where the text tells no trace.
fn meets<R: Threads + Wait + Sync>(
    rt: &R,
    alloc: Global,
    line: &str,
    file: &str,
    gate: &Meeting,
) -> Result<bool, NoMemory> {
    Ok(met(rt, alloc, line, file.as_bytes(), gate)?.is_some())
}

const FLIGHTS: [&str; 2] = ["flight --workers 2", "flight --workers 2 --tend 3"];

#[test]
fn flight_side_by_side(rt: HostRuntime) -> Result<(), Fail> {
    let alloc = rt.alloc();
    for line in &FLIGHTS {
        assert!(&rt;
            meets(&rt, alloc, line, FRAME, &Meeting::new(0, 5))?,
            "{line}"
        );
    }
    Ok(())
}

// Of frame 32 with eight passes nodes 1 and 10 need nothing of each other.
#[test]
fn gen_side_by_side(rt: HostRuntime) -> Result<(), Fail> {
    let line = "gen --number 32 --passes 8 --summary --workers 2";
    assert!(&rt; meets(&rt, rt.alloc(), line, "", &Meeting::new(1, 10))?);
    Ok(())
}

// With three workers three commands are in hand at once.
#[test]
fn three_side_by_side(rt: HostRuntime) -> Result<(), Fail> {
    let gate = Meeting::of_three(0, 5, 10);
    assert!(&rt; meets(&rt, rt.alloc(), "run --workers 3", THREE, &gate)?);
    Ok(())
}
