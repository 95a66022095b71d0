//! Frames from numbers.

use crate::given::gives;
use std::test::Fail;
use test_calls::Status;

const ONE_PASS: &str =
    r#"{"exports":["r0"],"format":2,"passes":[{"name":"p0","ops":[{"base":0,"dst":"r0","dx":1,"dy":64,"op":"ramp"}],"queue":"g","reads":[],"side_effect":false,"writes":[{"new":"r0"}]}],"queues":[{"family":"graphics","name":"g"},{"family":"compute","name":"c"},{"family":"transfer","name":"t"}],"resources":[{"image":[64,64],"name":"r0","texel":"r32"}]}
"#;

// A command line, the status and the text.
const LINES: [(&str, Status, &str); 5] = [
    ("gen --number 0 --passes 1", Status::Done, ONE_PASS),
    (
        "gen --number 0 --passes 1 --summary",
        Status::Done,
        "kept 1 culled 0\nnodes 7\nheap 16384 separate 16384\nexports 1 bytes 16384 sum 552960\n",
    ),
    (
        "gen --number 0 --passes 3 --summary --workers 4 --tend 1",
        Status::Done,
        "kept 2 culled 1\nnodes 13\nheap 32768 separate 32768\nexports 1 bytes 16384 sum 552960\n",
    ),
    ("gen --number 7 --passes 0", Status::Words, "words\n"),
    ("gen --number 7 --trace", Status::Words, "words\n"),
];

#[test]
fn generates(rt: HostRuntime) -> Result<(), Fail> {
    let alloc = rt.alloc();
    for (line, status, text) in &LINES {
        gives(&rt, alloc, line, "", *status, text)?;
    }
    Ok(())
}

const FEW: &str =
    "kept 12 culled 12\nnodes 74\nheap 65536 separate 196608\nexports 2 bytes 32768 sum 1873024\n";

const MOST: &str =
    "kept 42 culled 214\nnodes 274\nheap 311296 separate 688128\nexports 16 bytes 262144 sum 17681926\n";

// However many workers there are, and whatever the seed, the numbers are the same.
const SUMMARIES: [(&str, &str); 12] = [
    ("gen --number 7 --passes 24 --summary --workers 1", FEW),
    ("gen --number 7 --passes 24 --summary --workers 2", FEW),
    (
        "gen --number 7 --passes 24 --summary --workers 4 --tend 2",
        FEW,
    ),
    (
        "gen --number 7 --passes 256 --summary --workers 1 --tend 1",
        MOST,
    ),
    (
        "gen --number 7 --passes 256 --summary --workers 1 --tend 2",
        MOST,
    ),
    (
        "gen --number 7 --passes 256 --summary --workers 1 --tend 3",
        MOST,
    ),
    (
        "gen --number 7 --passes 256 --summary --workers 2 --tend 1",
        MOST,
    ),
    (
        "gen --number 7 --passes 256 --summary --workers 2 --tend 2",
        MOST,
    ),
    (
        "gen --number 7 --passes 256 --summary --workers 2 --tend 3",
        MOST,
    ),
    (
        "gen --number 7 --passes 256 --summary --workers 4 --tend 1",
        MOST,
    ),
    (
        "gen --number 7 --passes 256 --summary --workers 4 --tend 2",
        MOST,
    ),
    (
        "gen --number 7 --passes 256 --summary --workers 4 --tend 3",
        MOST,
    ),
];

#[test]
fn summaries(rt: HostRuntime) -> Result<(), Fail> {
    let alloc = rt.alloc();
    for (line, text) in &SUMMARIES {
        gives(&rt, alloc, line, "", Status::Done, text)?;
    }
    Ok(())
}
