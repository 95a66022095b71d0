//! Submissions without the waits that they do not need.

use crate::given::gives;
use std::test::Fail;
use test_calls::Status;

// An image goes from a compute queue to a graphics queue.
const RAMP_AND_MAP: &str =
    r#"{"format":1,"queues":[{"name":"g","family":"graphics"},{"name":"c","family":"compute"}],"resources":[{"name":"im","image":[4,4],"texel":"r32"},{"name":"out","image":[4,4],"texel":"r32"}],"passes":[{"name":"w","queue":"c","reads":[],"writes":[{"new":"im"}],"ops":[{"op":"ramp","dst":"im","base":1,"dx":1,"dy":4}]},{"name":"s","queue":"g","reads":["im"],"writes":[{"new":"out"}],"ops":[{"op":"map","src":"im","dst":"out","fun":"add","value":1}]}],"exports":["out"]}"#;

// The wait is for the stage of the transfer's other half, and not for all.
const TIGHT: &str =
    r#"{"format":2,"memories":[{"size":320},{"size":64}],"pieces":[{"image":[4,4],"memory":0,"offset":0,"texel":"r32"},{"image":[4,4],"memory":0,"offset":256,"texel":"r32"},{"buffer":64,"memory":1,"offset":0}],"queues":[{"batches":[{"items":[{"dst_access":"SHADER_SAMPLED_READ","dst_stage":"COMPUTE_SHADER","from":"GENERAL","from_family":"compute","item":"acquire","piece":0,"src_access":"","src_stage":"COMPUTE_SHADER","to":"SHADER_READ_ONLY_OPTIMAL","to_family":"graphics"},{"dst_access":"SHADER_STORAGE_WRITE","dst_stage":"COMPUTE_SHADER","from":"UNDEFINED","item":"image","piece":1,"src_access":"","src_stage":"COMPUTE_SHADER","to":"GENERAL"},{"dst":1,"fun":"add","item":"command","op":"map","src":0,"value":1},{"dst_access":"TRANSFER_READ","dst_stage":"COPY","from":"GENERAL","item":"image","piece":1,"src_access":"SHADER_STORAGE_WRITE","src_stage":"COMPUTE_SHADER","to":"TRANSFER_SRC_OPTIMAL"},{"dst":2,"item":"command","offset":0,"op":"image_to_buffer","src":1},{"dst_access":"HOST_READ","dst_stage":"HOST","item":"buffer","piece":2,"src_access":"TRANSFER_WRITE","src_stage":"COPY"}],"signal":{"stage":"ALL_COMMANDS","value":1},"waits":[{"queue":1,"stage":"COMPUTE_SHADER","value":1}]}],"family":"graphics"},{"batches":[{"items":[{"dst_access":"SHADER_STORAGE_WRITE","dst_stage":"COMPUTE_SHADER","from":"UNDEFINED","item":"image","piece":0,"src_access":"","src_stage":"COMPUTE_SHADER","to":"GENERAL"},{"base":1,"dst":0,"dx":1,"dy":4,"item":"command","op":"ramp"},{"dst_access":"","dst_stage":"COMPUTE_SHADER","from":"GENERAL","from_family":"compute","item":"release","piece":0,"src_access":"SHADER_STORAGE_WRITE","src_stage":"COMPUTE_SHADER","to":"SHADER_READ_ONLY_OPTIMAL","to_family":"graphics"}],"signal":{"stage":"ALL_COMMANDS","value":1},"waits":[]}],"family":"compute"}],"readbacks":[2]}
"#;

const RUN: &str =
    "kept 2 culled 0\nexport out 64\n0200000003000000040000000500000006000000070000000800000009000000\n0a0000000b0000000c0000000d0000000e0000000f0000001000000011000000\n";

// Command lines, and what they print.
const LINES: [(&str, &str); 3] = [
    ("compile --tight", TIGHT),
    ("run --tight", RUN),
    ("run", RUN),
];

#[test]
fn tightened(rt: HostRuntime) -> Result<(), Fail> {
    let alloc = rt.alloc();
    for (line, text) in &LINES {
        gives(&rt, alloc, line, RAMP_AND_MAP, Status::Done, text)?;
    }
    Ok(())
}
