//! Answers as JSON.

use crate::calls::{CHAIN, FILL};
use crate::given::gives;
use base::{List, NoMemory};
use base_io::{IdleGate, SteadySource};
use std::alloc::Global;
use std::sync::Wait;
use std::test::Fail;
use std::thread::Threads;
use test_calls::{Status, answer_from};

// An image of two layers.
const LAYERS: &str =
    r#"{"format":2,"queues":[{"name":"g","family":"graphics"}],"resources":[{"name":"im","image":[2,1],"texel":"r8","layers":2}],"passes":[{"name":"w","queue":"g","reads":[],"writes":[{"new":"im"}],"ops":[{"op":"ramp","dst":"im/0","base":1,"dx":1,"dy":0},{"op":"ramp","dst":"im/1","base":5,"dx":2,"dy":0}]}],"exports":["im"]}"#;

// No transient resource, and no pass.
const IMPORT: &str =
    r#"{"format":1,"queues":[{"name":"g","family":"graphics"}],"resources":[{"name":"in","buffer":4,"import":"01020304"}],"passes":[],"exports":["in"]}"#;

// Two passes of which one moves.
const TWO: &str =
    r#"{"format":1,"queues":[{"name":"g","family":"graphics"},{"name":"c","family":"compute"}],"resources":[{"name":"x","image":[2,2],"texel":"r32"},{"name":"y","image":[2,2],"texel":"r32"}],"passes":[{"name":"one","queue":"g","writes":[{"new":"x"}],"ops":[{"op":"ramp","dst":"x","base":1,"dx":1,"dy":2}]},{"name":"two","queue":"g","writes":[{"new":"y"}],"ops":[{"op":"ramp","dst":"y","base":5,"dx":1,"dy":2}]}],"exports":["x","y"]}"#;

const NOTHING: &str =
    r#"{"format":1,"memories":[{"size":600}],"pieces":[{"buffer":4,"memory":0,"offset":0}],"queues":[{"family":"graphics","batches":[]}],"readbacks":[]}"#;

// A read of what nobody stored.
const UNDEFINED: &str =
    r#"{"format":1,"memories":[{"size":600}],"pieces":[{"buffer":4,"memory":0,"offset":0}],"queues":[{"family":"graphics","batches":[]}],"readbacks":[0]}"#;

// No queue.
const NO_QUEUE: &str = r#"{"format":1,"memories":[],"pieces":[],"queues":[],"readbacks":[]}"#;

// A command line, its file, the status, and the object.
const ANSWERS: [(&str, &str, Status, &str); 19] = [
    (
        "cull --json",
        FILL,
        Status::Done,
        r#"{"kept":1,"culled":0,"passes":[{"name":"p","kept":true}]}"#,
    ),
    (
        "cull --json",
        CHAIN,
        Status::Done,
        r#"{"kept":0,"culled":3,"passes":[{"name":"a","kept":false},{"name":"b","kept":false},{"name":"c","kept":false}]}"#,
    ),
    (
        "cull --json",
        IMPORT,
        Status::Done,
        r#"{"kept":0,"culled":0,"passes":[]}"#,
    ),
    (
        "place --json",
        FILL,
        Status::Done,
        r#"{"heap":16,"separate":16,"units":[{"offset":0,"size":16,"unit":"b"}]}"#,
    ),
    (
        "place --json",
        LAYERS,
        Status::Done,
        r#"{"heap":258,"separate":4,"units":[{"offset":0,"size":2,"unit":"im/0"},{"offset":256,"size":2,"unit":"im/1"}]}"#,
    ),
    (
        "place --json",
        IMPORT,
        Status::Done,
        r#"{"heap":0,"separate":0,"units":[]}"#,
    ),
    (
        "bound --json",
        LAYERS,
        Status::Done,
        r#"{"bound":258,"heap":258,"units":["im/0","im/1"]}"#,
    ),
    (
        "bound --json",
        IMPORT,
        Status::Done,
        r#"{"bound":0,"heap":0,"units":[]}"#,
    ),
    (
        "auto --cost --json",
        TWO,
        Status::Done,
        r#"{"given":4,"chosen":2}"#,
    ),
    (
        "check --json",
        NOTHING,
        Status::Done,
        r#"{"verdict":"sound","nodes":0}"#,
    ),
    (
        "check --json",
        UNDEFINED,
        Status::Rejected,
        r#"{"verdict":"hazard","hazard":"H8","node":0,"piece":0}"#,
    ),
    (
        "check --json",
        NO_QUEUE,
        Status::Refused,
        r#"{"verdict":"fault","fault":"G1","limit":"Queues","path":["queues"]}"#,
    ),
    (
        "check --json",
        "{",
        Status::Refused,
        r#"{"verdict":"fault","fault":"G10","path":[]}"#,
    ),
    (
        "cull --json",
        "",
        Status::Refused,
        r#"{"verdict":"fault","fault":"F1","path":[]}"#,
    ),
    (
        "place --json",
        r#"{"format":3}"#,
        Status::Refused,
        r#"{"verdict":"fault","fault":"F3","path":["format"]}"#,
    ),
    (
        "bound --json",
        "[]",
        Status::Refused,
        r#"{"verdict":"fault","fault":"F2","path":[]}"#,
    ),
    (
        "auto --cost --json",
        "",
        Status::Refused,
        r#"{"verdict":"fault","fault":"F1","path":[]}"#,
    ),
    // What has no JSON of its own takes no such option.
    ("auto --json", FILL, Status::Words, "words"),
    ("run --json", FILL, Status::Words, "words"),
];

#[test]
fn objects(rt: HostRuntime) -> Result<(), Fail> {
    let alloc = rt.alloc();
    for (line, file, status, object) in &ANSWERS {
        let text = format!(in alloc; "{object}\n")?;
        gives(&rt, alloc, line, file, *status, text.as_str())?;
    }
    Ok(())
}

// Whether a command line gives this text for so many spaces.
fn is_over<R: Threads + Wait + Sync>(
    rt: &R,
    alloc: Global,
    line: &str,
    count: usize,
    text: &str,
) -> Result<bool, NoMemory> {
    let bytes = List::from_vec(vec![in alloc; b' '; count]?);
    let mut source = SteadySource::new(bytes, u32::MAX);
    let answer = answer_from(rt, alloc, line, &mut source, &IdleGate)?;
    Ok(answer.is(Status::Refused, text))
}

// A command line, how many bytes are too many, and the text.
const LIMITS: [(&str, usize, &str); 2] = [
    (
        "cull --json",
        16_777_217,
        "{\"verdict\":\"fault\",\"fault\":\"F4\",\"limit\":\"Input\",\"path\":[]}\n",
    ),
    (
        "check --json",
        33_554_433,
        "{\"verdict\":\"fault\",\"fault\":\"G1\",\"limit\":\"Input\",\"path\":[]}\n",
    ),
];

#[test]
fn over_the_limit(rt: HostRuntime) -> Result<(), Fail> {
    let alloc = rt.alloc();
    for (line, count, text) in &LIMITS {
        assert!(&rt; is_over(&rt, alloc, line, *count, text)?, "{line}");
    }
    Ok(())
}
