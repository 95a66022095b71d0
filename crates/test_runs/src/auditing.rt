//! Recorded runs, judged.

use crate::executing::{FILL, FILL_TEXT};
use crate::given::gives;
use base::{List, NoMemory};
use base_io::IdleGate;
use std::alloc::Global;
use std::sync::Wait;
use std::test::Fail;
use std::thread::Threads;
use test_calls::{Status, answer_of};

// A fill, a copy into a read-back, a barrier after each, and a run of them.
pub(crate) const RUN: &str =
    r#"{"format":2,"memories":[{"size":16},{"size":16}],"pieces":[{"buffer":16,"memory":0,"offset":0},{"buffer":16,"memory":1,"offset":0}],"queues":[{"batches":[{"items":[{"dst":0,"item":"command","offset":0,"op":"fill_buffer","size":16,"word":7},{"dst_access":"TRANSFER_READ","dst_stage":"COPY","item":"buffer","piece":0,"src_access":"TRANSFER_WRITE","src_stage":"CLEAR"},{"dst":1,"dst_offset":0,"item":"command","op":"copy_buffer","size":16,"src":0,"src_offset":0},{"dst_access":"HOST_READ","dst_stage":"HOST","item":"buffer","piece":1,"src_access":"TRANSFER_WRITE","src_stage":"COPY"}],"signal":{"stage":"ALL_COMMANDS","value":1},"waits":[]}],"family":"graphics"}],"readbacks":[1]}
events 8
begin 0
end 0
sync 1
begin 2
end 2
sync 3
sync 4
host 5
"#;

// A piece of the run, another in its place, the status and the text.
const TRACES: [(&str, &str, Status, &str); 8] = [
    (
        "events 8",
        "events 8",
        Status::Done,
        "run 8 events\nreadback 0 16\n07000000070000000700000007000000\n",
    ),
    (
        "end 0\nsync 1",
        "sync 1\nend 0",
        Status::Rejected,
        "hazard A3 1\n",
    ),
    (
        "events 8\nbegin 0\nend 0\nsync 1\nbegin 2\nend 2\nsync 3\nsync 4\nhost 5\n",
        "events 7\nbegin 0\nend 0\nsync 1\nbegin 2\nend 2\nsync 3\nsync 4\n",
        Status::Rejected,
        "hazard A4 5\n",
    ),
    ("host 5\n", "", Status::Refused, "fault A1 8\n"),
    (
        "events 8",
        "events 65537",
        Status::Refused,
        "fault A2 65537\n",
    ),
    // Without a line feed all is the submission.
    (
        "\nevents 8\nbegin 0\nend 0\nsync 1\nbegin 2\nend 2\nsync 3\nsync 4\nhost 5\n",
        "",
        Status::Refused,
        "fault A1 0\n",
    ),
    // A hazard comes after a fault of the trace, and before a verdict.
    (
        r#""src_access":"TRANSFER_WRITE","src_stage":"CLEAR""#,
        r#""src_access":"","src_stage":"CLEAR""#,
        Status::Rejected,
        "hazard H3 0 2\n",
    ),
    ("[1]}", "[7]}", Status::Refused, "fault G3 $.readbacks[0]\n"),
];

#[test]
fn audits(rt: HostRuntime) -> Result<(), Fail> {
    let alloc = rt.alloc();
    for (piece, other, status, text) in &TRACES {
        let file = RUN.replace(alloc, piece, other)?;
        gives(&rt, alloc, "audit", file.as_str(), *status, text)?;
    }
    Ok(())
}

// A submission, and behind it a trace.
fn joined(alloc: Global, submission: &[u8], trace: &[u8]) -> Result<List<u8>, NoMemory> {
    let mut bytes = List::from_slice(alloc, submission)?;
    bytes.push(b'\n')?;
    bytes.extend_from_slice(trace)?;
    Ok(bytes)
}

// Whether a trace is a run of a submission, with a verdict that begins so.
fn is_run<R: Threads + Wait + Sync>(
    rt: &R,
    alloc: Global,
    submission: &[u8],
    trace: &[u8],
    front: &str,
) -> Result<bool, NoMemory> {
    let file = joined(alloc, submission, trace)?;
    let answer = answer_of(rt, alloc, "audit", &file, &IdleGate)?;
    Ok(answer.status == Some(Status::Done) && answer.text().starts_with(front.as_bytes()))
}

// Whether a command line gives for a file this text and then a trace, which is a run of this submission, with a verdict that
// begins so.
pub(crate) fn is_audited<R: Threads + Wait + Sync>(
    rt: &R,
    alloc: Global,
    (line, file, text): (&str, &str, &str),
    (submission, front): (&[u8], &str),
) -> Result<bool, NoMemory> {
    let answer = answer_of(rt, alloc, line, file.as_bytes(), &IdleGate)?;
    match answer.text().strip_prefix(text.as_bytes()) {
        Some(trace) => is_run(rt, alloc, submission, trace, front),
        None => Ok(false),
    }
}

// What four workers and a tender have done is a run.
#[test]
fn audits_workers(rt: HostRuntime) -> Result<(), Fail> {
    let row = ("exec --trace --workers 4 --tend 1", FILL, FILL_TEXT);
    let judged = (FILL.as_bytes(), "run 264 events\n");
    assert!(&rt; is_audited(&rt, rt.alloc(), row, judged)?);
    Ok(())
}
