//! Frames and submissions, run on a device.

use crate::given::gives;
use base::NoMemory;
use base_io::IdleGate;
use std::alloc::Global;
use std::sync::Wait;
use std::test::Fail;
use std::thread::Threads;
use test_calls::{Status, answer_of};

// A fill of one buffer.
pub(crate) const ONE_FILL: &str =
    "{\"format\":1,\"queues\":[{\"name\":\"g\",\"family\":\"graphics\"}],\"resources\":[{\"name\":\"b\",\"buffer\":16}],\"passes\":[{\"name\":\"p\",\"queue\":\"g\",\"writes\":[{\"new\":\"b\"}],\"ops\":[{\"op\":\"fill_buffer\",\"dst\":\"b\",\"offset\":0,\"size\":16,\"word\":7}]}],\"exports\":[\"b\"]}";

// A fill, a copy into a read-back, and a barrier after each.
pub(crate) const FILL: &str =
    r#"{"format":2,"memories":[{"size":16},{"size":16}],"pieces":[{"buffer":16,"memory":0,"offset":0},{"buffer":16,"memory":1,"offset":0}],"queues":[{"batches":[{"items":[{"dst":0,"item":"command","offset":0,"op":"fill_buffer","size":16,"word":7},{"dst_access":"TRANSFER_READ","dst_stage":"COPY","item":"buffer","piece":0,"src_access":"TRANSFER_WRITE","src_stage":"CLEAR"},{"dst":1,"dst_offset":0,"item":"command","op":"copy_buffer","size":16,"src":0,"src_offset":0},{"dst_access":"HOST_READ","dst_stage":"HOST","item":"buffer","piece":1,"src_access":"TRANSFER_WRITE","src_stage":"COPY"}],"signal":{"stage":"ALL_COMMANDS","value":1},"waits":[]}],"family":"graphics"}],"readbacks":[1]}"#;

pub(crate) const FILL_TEXT: &str = "readback 0 16\n07000000070000000700000007000000\n";

// A copy of an import, a map of it, and a barrier after each; with NOTHING in place of TRANSFER_WRITE the copy is not made
// available.
const MAP: &str =
    r#"{"format":1,"memories":[{"size":256},{"size":256},{"import":"01000000"}],"pieces":[{"buffer":4,"memory":0,"offset":0},{"buffer":4,"memory":1,"offset":0},{"buffer":4,"memory":2,"offset":0}],"queues":[{"family":"graphics","batches":[{"items":[{"item":"command","op":"copy_buffer","src":2,"dst":0,"src_offset":0,"dst_offset":0,"size":4},{"item":"global","src_stage":"COPY","src_access":"TRANSFER_WRITE","dst_stage":"COMPUTE_SHADER","dst_access":"SHADER_STORAGE_READ"},{"item":"command","op":"map","src":0,"dst":1,"fun":"add","value":1},{"item":"buffer","piece":1,"src_stage":"COMPUTE_SHADER","src_access":"SHADER_STORAGE_WRITE","dst_stage":"HOST","dst_access":"HOST_READ"}],"signal":{"value":1,"stage":"ALL_COMMANDS"}}]}],"readbacks":[1]}"#;

const MAP_TEXT: &str = "readback 0 4\n02000000\n";

// A ramp by a compute queue, and a map of it by a graphics queue, of an image that both share.
const SHARED: &str =
    r#"{"format":2,"queues":[{"name":"g","family":"graphics"},{"name":"c","family":"compute"}],"resources":[{"name":"im","image":[4,4],"texel":"r32","sharing":"concurrent"},{"name":"out","image":[4,4],"texel":"r32"}],"passes":[{"name":"w","queue":"c","writes":[{"new":"im"}],"ops":[{"op":"ramp","dst":"im","base":1,"dx":1,"dy":4}]},{"name":"s","queue":"g","reads":["im"],"writes":[{"new":"out"}],"ops":[{"op":"map","src":"im","dst":"out","fun":"add","value":1}]}],"exports":["out"]}"#;

const SHARED_TEXT: &str =
    "kept 2 culled 0\nexport out 64\n0200000003000000040000000500000006000000070000000800000009000000\n0a0000000b0000000c0000000d0000000e0000000f0000001000000011000000\n";

// A command line, the file and the text.
const RUNS: [(&str, &str, &str); 14] = [
    (
        "run --trace",
        ONE_FILL,
        "kept 1 culled 0\nexport b 16\n07000000070000000700000007000000\nevents 8\nbegin 0\nend 0\nsync 1\nbegin 2\nend 2\nsync 3\nsync 4\nhost 5\n",
    ),
    ("run --workers 1", SHARED, SHARED_TEXT),
    ("run --workers 2", SHARED, SHARED_TEXT),
    ("run --workers 4", SHARED, SHARED_TEXT),
    ("run --workers 16", SHARED, SHARED_TEXT),
    ("run --tend 3 --workers 4", SHARED, SHARED_TEXT),
    ("exec", FILL, FILL_TEXT),
    ("exec --workers 1", MAP, MAP_TEXT),
    ("exec --workers 16", MAP, MAP_TEXT),
    ("exec --tend 1", MAP, MAP_TEXT),
    ("exec --tend 2 --workers 1", MAP, MAP_TEXT),
    ("exec --tend 4294967295", FILL, FILL_TEXT),
    (
        "exec --trace",
        FILL,
        "readback 0 16\n07000000070000000700000007000000\nevents 8\nbegin 0\nend 0\nsync 1\nbegin 2\nend 2\nsync 3\nsync 4\nhost 5\n",
    ),
    (
        "exec --trace --workers 4",
        MAP,
        "readback 0 4\n02000000\nevents 8\nbegin 0\nend 0\nsync 1\nbegin 2\nend 2\nsync 3\nsync 4\nhost 5\n",
    ),
];

// A piece of the map's file, another in its place, the status and the text.
const WRONG_FILES: [(&str, &str, Status, &str); 3] = [
    (
        r#""src_access":"TRANSFER_WRITE""#,
        r#""src_access":"""#,
        Status::Rejected,
        "hazard H3 0 2\n",
    ),
    ("[1]}", "[7]}", Status::Refused, "fault G3 $.readbacks[0]\n"),
    ("[1]}", "[1]", Status::Refused, "fault G10 $\n"),
];

#[test]
fn executes(rt: HostRuntime) -> Result<(), Fail> {
    let alloc = rt.alloc();
    for (line, file, text) in &RUNS {
        gives(&rt, alloc, line, file, Status::Done, text)?;
    }
    for (piece, other, status, text) in &WRONG_FILES {
        let file = MAP.replace(alloc, piece, other)?;
        gives(&rt, alloc, "exec --trace", file.as_str(), *status, text)?;
    }
    gives(
        &rt,
        alloc,
        "exec --workers 0",
        MAP,
        Status::Words,
        "words\n",
    )
}

// A command line and the file, and how the text begins.
const TENDED: [(&str, &str, &str); 2] = [
    (
        "run --trace --tend 5",
        ONE_FILL,
        "kept 1 culled 0\nexport b 16\n07000000070000000700000007000000\nevents 264\n",
    ),
    (
        "exec --trace --tend 5",
        FILL,
        "readback 0 16\n07000000070000000700000007000000\nevents 264\n",
    ),
];

// Whether the text of a command line on a file begins so.
fn begins_with<R: Threads + Wait + Sync>(
    rt: &R,
    alloc: Global,
    line: &str,
    file: &str,
    front: &str,
) -> Result<bool, NoMemory> {
    let answer = answer_of(rt, alloc, line, file.as_bytes(), &IdleGate)?;
    Ok(answer.status == Some(Status::Done) && answer.text().starts_with(front.as_bytes()))
}

// With a seed 256 cache moves stand among the events of the nodes.
#[test]
fn tended_trace(rt: HostRuntime) -> Result<(), Fail> {
    let alloc = rt.alloc();
    for (line, file, front) in &TENDED {
        assert!(&rt; begins_with(&rt, alloc, line, file, front)?, "{line}");
    }
    Ok(())
}
