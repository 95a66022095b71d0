//! Submissions, checked.

use crate::given::gives;
use std::test::Fail;
use test_calls::Status;

// Two pieces over the same memory, one of its own, an import and an image.
const FILE: &str =
    r#"{"format":1,"memories":[{"size":256},{"size":256},{"import":"01000000"},{"size":256}],"pieces":[{"buffer":4,"memory":0,"offset":0},{"buffer":4,"memory":0,"offset":0},{"buffer":4,"memory":1,"offset":0},{"buffer":4,"memory":2,"offset":0},{"image":[1,1],"texel":"r32","memory":3,"offset":0}],"queues":[QUEUES],"readbacks":[]}"#;

const QUEUE: &str =
    r#"{"family":"FAMILY","batches":[{"waits":[],"items":[ITEMS],"signal":{"value":1,"stage":"ALL_COMMANDS"}}]}"#;

// A queue's family and the items of its one batch, the status, and the line.
const BATCHES: [(&str, &str, Status, &str); 14] = [
    // A copy and a map without a barrier.
    (
        "graphics",
        r#"{"item":"command","op":"copy_buffer","src":3,"dst":0,"src_offset":0,"dst_offset":0,"size":4},{"item":"command","op":"map","src":0,"dst":2,"fun":"add","value":1}"#,
        Status::Rejected,
        "hazard H2 0 1\n",
    ),
    // A barrier that makes nothing available.
    (
        "graphics",
        r#"{"item":"command","op":"copy_buffer","src":3,"dst":0,"src_offset":0,"dst_offset":0,"size":4},{"item":"global","src_stage":"COPY","src_access":"","dst_stage":"COMPUTE_SHADER","dst_access":"SHADER_STORAGE_READ"},{"item":"command","op":"map","src":0,"dst":2,"fun":"add","value":1}"#,
        Status::Rejected,
        "hazard H3 0 2\n",
    ),
    // A barrier that makes memory visible to another access.
    (
        "graphics",
        r#"{"item":"command","op":"copy_buffer","src":3,"dst":0,"src_offset":0,"dst_offset":0,"size":4},{"item":"global","src_stage":"COPY","src_access":"TRANSFER_WRITE","dst_stage":"COMPUTE_SHADER","dst_access":"SHADER_SAMPLED_READ"},{"item":"command","op":"map","src":0,"dst":2,"fun":"add","value":1}"#,
        Status::Rejected,
        "hazard H4 0 2\n",
    ),
    // A clear of an image in no layout.
    (
        "graphics",
        r#"{"item":"command","op":"clear_image","dst":4,"value":5}"#,
        Status::Rejected,
        "hazard H5 0 4 UNDEFINED TRANSFER_DST_OPTIMAL\n",
    ),
    // A release without an acquire.
    (
        "graphics",
        r#"{"item":"command","op":"fill_buffer","dst":0,"offset":0,"size":4,"word":1},{"item":"release","piece":0,"from_family":"graphics","to_family":"compute","src_stage":"CLEAR","src_access":"TRANSFER_WRITE","dst_stage":"CLEAR","dst_access":""}"#,
        Status::Rejected,
        "hazard H7 1\n",
    ),
    // A copy of what nobody stored.
    (
        "graphics",
        r#"{"item":"command","op":"copy_buffer","src":0,"dst":2,"src_offset":0,"dst_offset":0,"size":4}"#,
        Status::Rejected,
        "hazard H8 0 0\n",
    ),
    // A copy of what was stored through another piece last.
    (
        "graphics",
        r#"{"item":"command","op":"fill_buffer","dst":0,"offset":0,"size":4,"word":1},{"item":"global","src_stage":"CLEAR","src_access":"TRANSFER_WRITE","dst_stage":"CLEAR","dst_access":"TRANSFER_WRITE"},{"item":"command","op":"fill_buffer","dst":1,"offset":0,"size":4,"word":2},{"item":"global","src_stage":"CLEAR","src_access":"TRANSFER_WRITE","dst_stage":"COPY","dst_access":"TRANSFER_READ"},{"item":"command","op":"copy_buffer","src":0,"dst":2,"src_offset":0,"dst_offset":0,"size":4}"#,
        Status::Rejected,
        "hazard H9 4 0 1\n",
    ),
    // A copy of more bytes than either piece has.
    (
        "graphics",
        r#"{"item":"command","op":"copy_buffer","src":3,"dst":0,"src_offset":0,"dst_offset":0,"size":8}"#,
        Status::Refused,
        "fault G2 $.queues[0].batches[0].items[0]\n",
    ),
    // A piece that is not there.
    (
        "graphics",
        r#"{"item":"command","op":"fill_buffer","dst":7,"offset":0,"size":4,"word":1}"#,
        Status::Refused,
        "fault G3 $.queues[0].batches[0].items[0]\n",
    ),
    // No stage.
    (
        "graphics",
        r#"{"item":"global","src_stage":"","src_access":"","dst_stage":"COPY","dst_access":""}"#,
        Status::Refused,
        "fault G4 $.queues[0].batches[0].items[0]\n",
    ),
    // A release with an access that nobody looks at.
    (
        "graphics",
        r#"{"item":"command","op":"fill_buffer","dst":0,"offset":0,"size":4,"word":1},{"item":"release","piece":0,"from_family":"graphics","to_family":"compute","src_stage":"CLEAR","src_access":"TRANSFER_WRITE","dst_stage":"CLEAR","dst_access":"TRANSFER_READ"}"#,
        Status::Refused,
        "fault G5 $.queues[0].batches[0].items[1]\n",
    ),
    // An access that the stage does not make.
    (
        "graphics",
        r#"{"item":"global","src_stage":"COPY","src_access":"HOST_READ","dst_stage":"COPY","dst_access":"TRANSFER_READ"}"#,
        Status::Refused,
        "fault G6 $.queues[0].batches[0].items[0]\n",
    ),
    // A stage that the queue's family has not.
    (
        "compute",
        r#"{"item":"global","src_stage":"COLOR_ATTACHMENT_OUTPUT","src_access":"","dst_stage":"COPY","dst_access":""}"#,
        Status::Refused,
        "fault G7 $.queues[0].batches[0].items[0]\n",
    ),
    // A map on a transfer queue.
    (
        "transfer",
        r#"{"item":"command","op":"map","src":3,"dst":2,"fun":"add","value":1}"#,
        Status::Refused,
        "fault G8 $.queues[0].batches[0].items[0]\n",
    ),
];

// Queues over the same pieces, the status, and the line.
const QUEUES: [(&str, Status, &str); 5] = [
    // A fill of what another family owns.
    (
        r#"{"family":"graphics","batches":[{"waits":[],"items":[{"item":"command","op":"fill_buffer","dst":0,"offset":0,"size":4,"word":1}],"signal":{"value":1,"stage":"ALL_COMMANDS"}}]},{"family":"compute","batches":[{"waits":[{"queue":0,"value":1,"stage":"ALL_COMMANDS"}],"items":[{"item":"command","op":"fill_buffer","dst":0,"offset":0,"size":4,"word":2}]}]}"#,
        Status::Rejected,
        "hazard H6 3 0 graphics compute\n",
    ),
    // A wait that no signal meets.
    (
        r#"{"family":"graphics","batches":[{"waits":[{"queue":0,"value":5,"stage":"ALL_COMMANDS"}],"items":[],"signal":{"value":1,"stage":"ALL_COMMANDS"}}]}"#,
        Status::Rejected,
        "hazard H1 0 0\n",
    ),
    // Two queues that wait for each other.
    (
        r#"{"family":"graphics","batches":[{"waits":[{"queue":1,"value":1,"stage":"ALL_COMMANDS"}],"items":[],"signal":{"value":1,"stage":"ALL_COMMANDS"}}]},{"family":"graphics","batches":[{"waits":[{"queue":0,"value":1,"stage":"ALL_COMMANDS"}],"items":[],"signal":{"value":1,"stage":"ALL_COMMANDS"}}]}"#,
        Status::Rejected,
        "hazard H1 0 0\n",
    ),
    // A value that does not rise.
    (
        r#"{"family":"graphics","batches":[{"waits":[],"items":[],"signal":{"value":1,"stage":"ALL_COMMANDS"}},{"waits":[],"items":[],"signal":{"value":1,"stage":"ALL_COMMANDS"}}]}"#,
        Status::Refused,
        "fault G9 $.queues[0].batches[1].signal\n",
    ),
    // Waits that are met in order.
    (
        r#"{"family":"graphics","batches":[{"waits":[],"items":[{"item":"command","op":"fill_buffer","dst":0,"offset":0,"size":4,"word":1}],"signal":{"value":1,"stage":"ALL_COMMANDS"}}]},{"family":"graphics","batches":[{"waits":[{"queue":0,"value":1,"stage":"ALL_COMMANDS"}],"items":[{"item":"command","op":"copy_buffer","src":0,"dst":2,"src_offset":0,"dst_offset":0,"size":4}],"signal":{"value":1,"stage":"ALL_COMMANDS"}}]},{"family":"graphics","batches":[{"waits":[{"queue":0,"value":1,"stage":"ALL_COMMANDS"},{"queue":1,"value":1,"stage":"ALL_COMMANDS"}],"items":[{"item":"command","op":"copy_buffer","src":2,"dst":0,"src_offset":0,"dst_offset":0,"size":4}],"signal":{"value":1,"stage":"ALL_COMMANDS"}}]}"#,
        Status::Done,
        "accepted 9 nodes\n",
    ),
];

// Whole files, the status, and the line.
const FILES: [(&str, Status, &str); 8] = [
    // A fill, copied and read back, in both formats.
    (
        r#"{"format":1,"memories":[{"size":16},{"size":16}],"pieces":[{"buffer":16,"memory":0,"offset":0},{"buffer":16,"memory":1,"offset":0}],"queues":[{"batches":[{"items":[{"dst":0,"item":"command","offset":0,"op":"fill_buffer","size":16,"word":7},{"dst_access":"TRANSFER_READ","dst_stage":"COPY","item":"buffer","piece":0,"src_access":"TRANSFER_WRITE","src_stage":"CLEAR"},{"dst":1,"dst_offset":0,"item":"command","op":"copy_buffer","size":16,"src":0,"src_offset":0},{"dst_access":"HOST_READ","dst_stage":"HOST","item":"buffer","piece":1,"src_access":"TRANSFER_WRITE","src_stage":"COPY"}],"signal":{"stage":"ALL_COMMANDS","value":1},"waits":[]}],"family":"graphics"}],"readbacks":[1]}"#,
        Status::Done,
        "accepted 6 nodes\n",
    ),
    (
        r#"{"format":2,"memories":[{"size":16},{"size":16}],"pieces":[{"buffer":16,"memory":0,"offset":0},{"buffer":16,"memory":1,"offset":0}],"queues":[{"batches":[{"items":[{"dst":0,"item":"command","offset":0,"op":"fill_buffer","size":16,"word":7},{"dst_access":"TRANSFER_READ","dst_stage":"COPY","item":"buffer","piece":0,"src_access":"TRANSFER_WRITE","src_stage":"CLEAR"},{"dst":1,"dst_offset":0,"item":"command","op":"copy_buffer","size":16,"src":0,"src_offset":0},{"dst_access":"HOST_READ","dst_stage":"HOST","item":"buffer","piece":1,"src_access":"TRANSFER_WRITE","src_stage":"COPY"}],"signal":{"stage":"ALL_COMMANDS","value":1},"waits":[]}],"family":"graphics"}],"readbacks":[1]}"#,
        Status::Done,
        "accepted 6 nodes\n",
    ),
    // A ramp and a map, on two queues with a transfer of ownership.
    (
        r#"{"format":1,"memories":[{"size":320},{"size":64}],"pieces":[{"image":[4,4],"memory":0,"offset":0,"texel":"r32"},{"image":[4,4],"memory":0,"offset":256,"texel":"r32"},{"buffer":64,"memory":1,"offset":0}],"queues":[{"batches":[{"items":[{"dst_access":"SHADER_SAMPLED_READ","dst_stage":"COMPUTE_SHADER","from":"GENERAL","from_family":"compute","item":"acquire","piece":0,"src_access":"","src_stage":"COMPUTE_SHADER","to":"SHADER_READ_ONLY_OPTIMAL","to_family":"graphics"},{"dst_access":"SHADER_STORAGE_WRITE","dst_stage":"COMPUTE_SHADER","from":"UNDEFINED","item":"image","piece":1,"src_access":"","src_stage":"COMPUTE_SHADER","to":"GENERAL"},{"dst":1,"fun":"add","item":"command","op":"map","src":0,"value":1},{"dst_access":"TRANSFER_READ","dst_stage":"COPY","from":"GENERAL","item":"image","piece":1,"src_access":"SHADER_STORAGE_WRITE","src_stage":"COMPUTE_SHADER","to":"TRANSFER_SRC_OPTIMAL"},{"dst":2,"item":"command","offset":0,"op":"image_to_buffer","src":1},{"dst_access":"HOST_READ","dst_stage":"HOST","item":"buffer","piece":2,"src_access":"TRANSFER_WRITE","src_stage":"COPY"}],"signal":{"stage":"ALL_COMMANDS","value":1},"waits":[{"queue":1,"stage":"ALL_COMMANDS","value":1}]}],"family":"graphics"},{"batches":[{"items":[{"dst_access":"SHADER_STORAGE_WRITE","dst_stage":"COMPUTE_SHADER","from":"UNDEFINED","item":"image","piece":0,"src_access":"","src_stage":"COMPUTE_SHADER","to":"GENERAL"},{"base":1,"dst":0,"dx":1,"dy":4,"item":"command","op":"ramp"},{"dst_access":"","dst_stage":"COMPUTE_SHADER","from":"GENERAL","from_family":"compute","item":"release","piece":0,"src_access":"SHADER_STORAGE_WRITE","src_stage":"COMPUTE_SHADER","to":"SHADER_READ_ONLY_OPTIMAL","to_family":"graphics"}],"signal":{"stage":"ALL_COMMANDS","value":1},"waits":[]}],"family":"compute"}],"readbacks":[2]}"#,
        Status::Done,
        "accepted 13 nodes\n",
    ),
    // The same with a concurrent image.
    (
        r#"{"format":2,"memories":[{"size":320},{"size":64}],"pieces":[{"image":[4,4],"memory":0,"offset":0,"sharing":"concurrent","texel":"r32"},{"image":[4,4],"memory":0,"offset":256,"texel":"r32"},{"buffer":64,"memory":1,"offset":0}],"queues":[{"batches":[{"items":[{"dst_access":"SHADER_SAMPLED_READ","dst_stage":"COMPUTE_SHADER","from":"GENERAL","item":"image","piece":0,"src_access":"","src_stage":"COMPUTE_SHADER","to":"SHADER_READ_ONLY_OPTIMAL"},{"dst_access":"SHADER_STORAGE_WRITE","dst_stage":"COMPUTE_SHADER","from":"UNDEFINED","item":"image","piece":1,"src_access":"","src_stage":"COMPUTE_SHADER","to":"GENERAL"},{"dst":1,"fun":"add","item":"command","op":"map","src":0,"value":1},{"dst_access":"TRANSFER_READ","dst_stage":"COPY","from":"GENERAL","item":"image","piece":1,"src_access":"SHADER_STORAGE_WRITE","src_stage":"COMPUTE_SHADER","to":"TRANSFER_SRC_OPTIMAL"},{"dst":2,"item":"command","offset":0,"op":"image_to_buffer","src":1},{"dst_access":"HOST_READ","dst_stage":"HOST","item":"buffer","piece":2,"src_access":"TRANSFER_WRITE","src_stage":"COPY"}],"signal":{"stage":"ALL_COMMANDS","value":1},"waits":[{"queue":1,"stage":"ALL_COMMANDS","value":1}]}],"family":"graphics"},{"batches":[{"items":[{"dst_access":"SHADER_STORAGE_WRITE","dst_stage":"COMPUTE_SHADER","from":"UNDEFINED","item":"image","piece":0,"src_access":"","src_stage":"COMPUTE_SHADER","to":"GENERAL"},{"base":1,"dst":0,"dx":1,"dy":4,"item":"command","op":"ramp"}],"signal":{"stage":"ALL_COMMANDS","value":1},"waits":[]}],"family":"compute"}],"readbacks":[2]}"#,
        Status::Done,
        "accepted 12 nodes\n",
    ),
    // A copy and a map with the right barriers.
    (
        r#"{"format":1,"memories":[{"size":256},{"size":256},{"import":"01000000"},{"size":256}],"pieces":[{"buffer":4,"memory":0,"offset":0},{"buffer":4,"memory":0,"offset":0},{"buffer":4,"memory":1,"offset":0},{"buffer":4,"memory":2,"offset":0},{"image":[1,1],"texel":"r32","memory":3,"offset":0}],"queues":[{"family":"graphics","batches":[{"waits":[],"items":[{"item":"command","op":"copy_buffer","src":3,"dst":0,"src_offset":0,"dst_offset":0,"size":4},{"item":"global","src_stage":"COPY","src_access":"TRANSFER_WRITE","dst_stage":"COMPUTE_SHADER","dst_access":"SHADER_STORAGE_READ"},{"item":"command","op":"map","src":0,"dst":2,"fun":"add","value":1},{"item":"buffer","piece":2,"src_stage":"COMPUTE_SHADER","src_access":"SHADER_STORAGE_WRITE","dst_stage":"HOST","dst_access":"HOST_READ"}],"signal":{"value":1,"stage":"ALL_COMMANDS"}}]}],"readbacks":[2]}"#,
        Status::Done,
        "accepted 6 nodes\n",
    ),
    // Fills of a concurrent piece on two families.
    (
        r#"{"format":2,"memories":[{"size":256},{"size":256},{"import":"01000000"},{"size":256}],"pieces":[{"buffer":4,"memory":0,"offset":0,"sharing":"concurrent"},{"buffer":4,"memory":0,"offset":0,"sharing":"concurrent"},{"buffer":4,"memory":1,"offset":0},{"buffer":4,"memory":2,"offset":0},{"image":[1,1],"texel":"r32","memory":3,"offset":0}],"queues":[{"family":"graphics","batches":[{"waits":[],"items":[{"item":"command","op":"fill_buffer","dst":0,"offset":0,"size":4,"word":1}],"signal":{"value":1,"stage":"ALL_COMMANDS"}}]},{"family":"compute","batches":[{"waits":[{"queue":0,"value":1,"stage":"ALL_COMMANDS"}],"items":[{"item":"command","op":"fill_buffer","dst":0,"offset":0,"size":4,"word":2}]}]}],"readbacks":[]}"#,
        Status::Done,
        "accepted 4 nodes\n",
    ),
    // Nothing at all.
    (
        r#"{"format":1,"memories":[{"size":600}],"pieces":[{"buffer":4,"memory":0,"offset":0}],"queues":[{"family":"graphics","batches":[]}],"readbacks":[]}"#,
        Status::Done,
        "accepted 0 nodes\n",
    ),
    // Many reads of what nobody stored.
    (
        r#"{"format":1,"memories":[{"size":600}],"pieces":[{"buffer":4,"memory":0,"offset":0}],"queues":[{"family":"graphics","batches":[]}],"readbacks":[0,0,0,0,0,0,0,0,0,0,0,0,0,0,0,0,0,0,0,0,0,0,0,0,0,0,0,0,0,0,0,0]}"#,
        Status::Rejected,
        "hazard H8 0 0\n",
    ),
];

#[test]
fn batches(rt: HostRuntime) -> Result<(), Fail> {
    let alloc = rt.alloc();
    for (family, items, status, line) in &BATCHES {
        let queue = QUEUE
            .replace(alloc, "FAMILY", family)?
            .replace(alloc, "ITEMS", items)?;
        let file = FILE.replace(alloc, "QUEUES", queue.as_str())?;
        gives(&rt, alloc, "check", file.as_str(), *status, line)?;
    }
    Ok(())
}

#[test]
fn submissions(rt: HostRuntime) -> Result<(), Fail> {
    let alloc = rt.alloc();
    for (queues, status, line) in &QUEUES {
        let file = FILE.replace(alloc, "QUEUES", queues)?;
        gives(&rt, alloc, "check", file.as_str(), *status, line)?;
    }
    for (file, status, line) in &FILES {
        gives(&rt, alloc, "check", file, *status, line)?;
    }
    Ok(())
}
