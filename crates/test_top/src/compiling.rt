//! What frames are compiled to, and that it is accepted.

use crate::given::gives;
use base::NoMemory;
use base_io::IdleGate;
use std::alloc::Global;
use std::sync::Wait;
use std::test::Fail;
use std::thread::Threads;
use test_calls::{Status, answer_of};

const ONE_FILL: &str =
    r#"{"format":1,"queues":[{"name":"g","family":"graphics"}],"resources":[{"name":"b","buffer":16}],"passes":[{"name":"p","queue":"g","writes":[{"new":"b"}],"ops":[{"op":"fill_buffer","dst":"b","offset":0,"size":16,"word":7}]}],"exports":["b"]}"#;

const ONE_FILL_TEXT: &str =
    r#"{"format":2,"memories":[{"size":16},{"size":16}],"pieces":[{"buffer":16,"memory":0,"offset":0},{"buffer":16,"memory":1,"offset":0}],"queues":[{"batches":[{"items":[{"dst":0,"item":"command","offset":0,"op":"fill_buffer","size":16,"word":7},{"dst_access":"TRANSFER_READ","dst_stage":"COPY","item":"buffer","piece":0,"src_access":"TRANSFER_WRITE","src_stage":"CLEAR"},{"dst":1,"dst_offset":0,"item":"command","op":"copy_buffer","size":16,"src":0,"src_offset":0},{"dst_access":"HOST_READ","dst_stage":"HOST","item":"buffer","piece":1,"src_access":"TRANSFER_WRITE","src_stage":"COPY"}],"signal":{"stage":"ALL_COMMANDS","value":1},"waits":[]}],"family":"graphics"}],"readbacks":[1]}
"#;

// Frames, and what is said of their submissions.
const FRAMES: [(&str, &str); 7] = [
    (ONE_FILL, "accepted 6 nodes\n"),
    // An import that is exported.
    (
        r#"{"format":1,"queues":[{"name":"g","family":"graphics"}],"resources":[{"name":"in","buffer":4,"import":"01020304"}],"passes":[],"exports":["in"]}"#,
        "accepted 4 nodes\n",
    ),
    // An image goes from a compute queue to a graphics queue: with a transfer, and shared.
    (
        r#"{"format":1,"queues":[{"name":"g","family":"graphics"},{"name":"c","family":"compute"}],"resources":[{"name":"im","image":[4,4],"texel":"r32"},{"name":"out","image":[4,4],"texel":"r32"}],"passes":[{"name":"w","queue":"c","writes":[{"new":"im"}],"ops":[{"op":"ramp","dst":"im","base":1,"dx":1,"dy":4}]},{"name":"s","queue":"g","reads":["im"],"writes":[{"new":"out"}],"ops":[{"op":"map","src":"im","dst":"out","fun":"add","value":1}]}],"exports":["out"]}"#,
        "accepted 13 nodes\n",
    ),
    (
        r#"{"format":2,"queues":[{"name":"g","family":"graphics"},{"name":"c","family":"compute"}],"resources":[{"name":"im","image":[4,4],"texel":"r32","sharing":"concurrent"},{"name":"out","image":[4,4],"texel":"r32"}],"passes":[{"name":"w","queue":"c","writes":[{"new":"im"}],"ops":[{"op":"ramp","dst":"im","base":1,"dx":1,"dy":4}]},{"name":"s","queue":"g","reads":["im"],"writes":[{"new":"out"}],"ops":[{"op":"map","src":"im","dst":"out","fun":"add","value":1}]}],"exports":["out"]}"#,
        "accepted 12 nodes\n",
    ),
    // A wait between two reads of an image.
    (
        r#"{"format":1,"queues":[{"name":"g0","family":"graphics"},{"name":"g1","family":"graphics"}],"resources":[{"name":"im","image":[4,4],"texel":"r32"},{"name":"a","image":[4,4],"texel":"r32"},{"name":"buf","buffer":64}],"passes":[{"name":"w","queue":"g0","writes":[{"new":"im"}],"ops":[{"op":"ramp","dst":"im","base":1,"dx":1,"dy":4}]},{"name":"m","queue":"g0","reads":["im"],"writes":[{"new":"a"}],"ops":[{"op":"map","src":"im","dst":"a","fun":"add","value":1}]},{"name":"r","queue":"g1","reads":["im"],"writes":[{"new":"buf"}],"ops":[{"op":"image_to_buffer","src":"im","dst":"buf","offset":0}]}],"exports":["a","buf"]}"#,
        "accepted 19 nodes\n",
    ),
    // Two buffers in the same bytes, one after another on one queue; and two queues, which keep them apart.
    (
        r#"{"format":1,"queues":[{"name":"g","family":"graphics"}],"resources":[{"name":"x","buffer":512},{"name":"y","buffer":512},{"name":"m","buffer":4},{"name":"n","buffer":4}],"passes":[{"name":"one","queue":"g","writes":[{"new":"x"},{"new":"m"}],"ops":[{"op":"fill_buffer","dst":"x","offset":0,"size":512,"word":1},{"op":"copy_buffer","src":"x","dst":"m","src_offset":0,"dst_offset":0,"size":4}]},{"name":"two","queue":"g","writes":[{"new":"y"},{"new":"n"}],"ops":[{"op":"fill_buffer","dst":"y","offset":0,"size":512,"word":2},{"op":"copy_buffer","src":"y","dst":"n","src_offset":0,"dst_offset":0,"size":4}]}],"exports":["m","n"]}"#,
        "accepted 16 nodes\n",
    ),
    (
        r#"{"format":1,"queues":[{"name":"g","family":"graphics"},{"name":"t","family":"transfer"}],"resources":[{"name":"x","buffer":512},{"name":"y","buffer":512},{"name":"m","buffer":4},{"name":"n","buffer":4}],"passes":[{"name":"one","queue":"g","writes":[{"new":"x"},{"new":"m"}],"ops":[{"op":"fill_buffer","dst":"x","offset":0,"size":512,"word":1},{"op":"copy_buffer","src":"x","dst":"m","src_offset":0,"dst_offset":0,"size":4}]},{"name":"two","queue":"t","writes":[{"new":"y"},{"new":"n"}],"ops":[{"op":"fill_buffer","dst":"y","offset":0,"size":512,"word":2},{"op":"copy_buffer","src":"y","dst":"n","src_offset":0,"dst_offset":0,"size":4}]}],"exports":["m","n"]}"#,
        "accepted 16 nodes\n",
    ),
];

#[test]
fn compiles(rt: HostRuntime) -> Result<(), Fail> {
    gives(
        &rt,
        rt.alloc(),
        "compile",
        ONE_FILL,
        Status::Done,
        ONE_FILL_TEXT,
    )
}

// Whether `check` says this of a file.
fn is_accepted<R: Threads + Wait + Sync>(
    rt: &R,
    alloc: Global,
    file: &[u8],
    accepted: &str,
) -> Result<bool, NoMemory> {
    let answer = answer_of(rt, alloc, "check", file, &IdleGate)?;
    Ok(answer.is(Status::Done, accepted))
}

// Whether it says this of what a frame is compiled to.
fn is_compiled<R: Threads + Wait + Sync>(
    rt: &R,
    alloc: Global,
    frame: &str,
    accepted: &str,
) -> Result<bool, NoMemory> {
    let answer = answer_of(rt, alloc, "compile", frame.as_bytes(), &IdleGate)?;
    is_accepted(rt, alloc, answer.text(), accepted)
}

#[test]
fn compiled_frames_are_accepted(rt: HostRuntime) -> Result<(), Fail> {
    for (frame, accepted) in &FRAMES {
        assert!(&rt; is_compiled(&rt, rt.alloc(), frame, accepted)?, "{frame}");
    }
    Ok(())
}
