//! Where transient resources lie, and how much memory they need at least.

use crate::given::gives;
use std::test::Fail;
use test_calls::Status;

// Frames, and the lines of `place` and of `bound`.
const FRAMES: [(&str, &str, &str); 6] = [
    // Two buffers of one pass.
    (
        r#"{"format":1,"queues":[{"name":"g","family":"graphics"}],"resources":[{"name":"b","buffer":16},{"name":"d","buffer":4}],"passes":[{"name":"p","queue":"g","writes":[{"new":"b"},{"new":"d"}],"ops":[{"op":"fill_buffer","dst":"b","offset":0,"size":16,"word":7},{"op":"fill_buffer","dst":"d","offset":0,"size":4,"word":9}]}],"exports":["b"]}"#,
        "heap 260 separate 20\n0 16 b\n256 4 d\n",
        "bound 260 heap 260\nb\nd\n",
    ),
    // An image that two queues read.
    (
        r#"{"format":1,"queues":[{"name":"g0","family":"graphics"},{"name":"g1","family":"graphics"}],"resources":[{"name":"im","image":[4,4],"texel":"r32"},{"name":"a","image":[4,4],"texel":"r32"},{"name":"buf","buffer":64}],"passes":[{"name":"w","queue":"g0","reads":[],"writes":[{"new":"im"}],"ops":[{"op":"ramp","dst":"im","base":1,"dx":1,"dy":4}]},{"name":"m","queue":"g0","reads":["im"],"writes":[{"new":"a"}],"ops":[{"op":"map","src":"im","dst":"a","fun":"add","value":1}]},{"name":"r","queue":"g1","reads":["im"],"writes":[{"new":"buf"}],"ops":[{"op":"image_to_buffer","src":"im","dst":"buf","offset":0}]}],"exports":["a","buf"]}"#,
        "heap 576 separate 192\n0 64 im\n256 64 a\n512 64 buf\n",
        "bound 576 heap 576\nim\na\nbuf\n",
    ),
    // Two buffers that are used one after another on one queue, and side by side on two.
    (
        r#"{"format":1,"queues":[{"name":"g","family":"graphics"}],"resources":[{"name":"x","buffer":512},{"name":"y","buffer":512},{"name":"m","buffer":4},{"name":"n","buffer":4}],"passes":[{"name":"one","queue":"g","reads":[],"writes":[{"new":"x"},{"new":"m"}],"ops":[{"op":"fill_buffer","dst":"x","offset":0,"size":512,"word":1},{"op":"copy_buffer","src":"x","dst":"m","src_offset":0,"dst_offset":0,"size":4}]},{"name":"two","queue":"g","reads":[],"writes":[{"new":"y"},{"new":"n"}],"ops":[{"op":"fill_buffer","dst":"y","offset":0,"size":512,"word":2},{"op":"copy_buffer","src":"y","dst":"n","src_offset":0,"dst_offset":0,"size":4}]}],"exports":["m","n"]}"#,
        "heap 772 separate 1032\n0 512 x\n0 512 y\n512 4 m\n768 4 n\n",
        "bound 772 heap 772\ny\nm\nn\n",
    ),
    (
        r#"{"format":1,"queues":[{"name":"g","family":"graphics"},{"name":"t","family":"transfer"}],"resources":[{"name":"x","buffer":512},{"name":"y","buffer":512},{"name":"m","buffer":4},{"name":"n","buffer":4}],"passes":[{"name":"one","queue":"g","reads":[],"writes":[{"new":"x"},{"new":"m"}],"ops":[{"op":"fill_buffer","dst":"x","offset":0,"size":512,"word":1},{"op":"copy_buffer","src":"x","dst":"m","src_offset":0,"dst_offset":0,"size":4}]},{"name":"two","queue":"t","reads":[],"writes":[{"new":"y"},{"new":"n"}],"ops":[{"op":"fill_buffer","dst":"y","offset":0,"size":512,"word":2},{"op":"copy_buffer","src":"y","dst":"n","src_offset":0,"dst_offset":0,"size":4}]}],"exports":["m","n"]}"#,
        "heap 1284 separate 1032\n0 512 x\n512 512 y\n1024 4 m\n1280 4 n\n",
        "bound 1284 heap 1284\nx\ny\nm\nn\n",
    ),
    // Two layers.
    (
        r#"{"format":2,"queues":[{"name":"g","family":"graphics"}],"resources":[{"name":"im","image":[2,1],"texel":"r8","layers":2}],"passes":[{"name":"w","queue":"g","reads":[],"writes":[{"new":"im"}],"ops":[{"op":"ramp","dst":"im/0","base":1,"dx":1,"dy":0},{"op":"ramp","dst":"im/1","base":5,"dx":2,"dy":0}]}],"exports":["im"]}"#,
        "heap 258 separate 4\n0 2 im/0\n256 2 im/1\n",
        "bound 258 heap 258\nim/0\nim/1\n",
    ),
    // No transient resource.
    (
        r#"{"format":1,"queues":[{"name":"g","family":"graphics"}],"resources":[{"name":"in","buffer":4,"import":"01020304"}],"passes":[],"exports":["in"]}"#,
        "heap 0 separate 0\n",
        "bound 0 heap 0\n",
    ),
];

#[test]
fn places(rt: HostRuntime) -> Result<(), Fail> {
    let alloc = rt.alloc();
    for (file, text, _) in &FRAMES {
        gives(&rt, alloc, "place", file, Status::Done, text)?;
    }
    Ok(())
}

#[test]
fn bounds(rt: HostRuntime) -> Result<(), Fail> {
    let alloc = rt.alloc();
    for (file, _, text) in &FRAMES {
        gives(&rt, alloc, "bound", file, Status::Done, text)?;
    }
    Ok(())
}
