//! Submissions with a fault, or with a hazard alone, through reading and the rules on programs.

use crate::subfile_judge::judge_shape;
use std::alloc::Global;
use std::test::Fail;

// Four memories, five pieces, and one queue with one batch.
const FILE: &str =
    r#"{"format":2,"memories":[{"size":256},{"size":256},{"import":"01000000"},{"size":256}],"pieces":[{"buffer":4,"memory":0,"offset":0},{"buffer":4,"memory":0,"offset":0},{"buffer":4,"memory":1,"offset":0},{"buffer":4,"memory":2,"offset":0},{"image":[1,1],"texel":"r32","memory":3,"offset":0}],"queues":[{"family":"FAMILY","batches":[{"items":[ITEMS],"signal":{"value":1,"stage":"ALL_COMMANDS"}}MORE]}],"readbacks":[]}"#;

// The family, the items, more batches, and the answer.
const ROWS: [(&str, &str, &str, &str); 9] = [
    // mask mismatch
    (
        "graphics",
        r#"{"item":"global","src_stage":"COPY","src_access":"HOST_READ","dst_stage":"COPY","dst_access":"TRANSFER_READ"}"#,
        "",
        "G6 $.queues[0].batches[0].items[0]",
    ),
    // empty stage
    (
        "graphics",
        r#"{"item":"global","src_stage":"","src_access":"","dst_stage":"COPY","dst_access":""}"#,
        "",
        "G4 $.queues[0].batches[0].items[0]",
    ),
    // unknown piece
    (
        "graphics",
        r#"{"item":"command","op":"fill_buffer","dst":7,"offset":0,"size":4,"word":1}"#,
        "",
        "G3 $.queues[0].batches[0].items[0]",
    ),
    // ignored access
    (
        "graphics",
        r#"{"item":"command","op":"fill_buffer","dst":0,"offset":0,"size":4,"word":1},{"item":"release","piece":0,"from_family":"graphics","to_family":"compute","src_stage":"CLEAR","src_access":"TRANSFER_WRITE","dst_stage":"CLEAR","dst_access":"TRANSFER_READ"}"#,
        "",
        "G5 $.queues[0].batches[0].items[1]",
    ),
    // unmatched release
    (
        "graphics",
        r#"{"item":"command","op":"fill_buffer","dst":0,"offset":0,"size":4,"word":1},{"item":"release","piece":0,"from_family":"graphics","to_family":"compute","src_stage":"CLEAR","src_access":"TRANSFER_WRITE","dst_stage":"CLEAR","dst_access":""}"#,
        "",
        "shaped",
    ),
    // map on transfer
    (
        "transfer",
        r#"{"item":"command","op":"map","src":3,"dst":2,"fun":"add","value":1}"#,
        "",
        "G8 $.queues[0].batches[0].items[0]",
    ),
    // stage on compute
    (
        "compute",
        r#"{"item":"global","src_stage":"COLOR_ATTACHMENT_OUTPUT","src_access":"","dst_stage":"COPY","dst_access":""}"#,
        "",
        "G7 $.queues[0].batches[0].items[0]",
    ),
    // copy too long
    (
        "graphics",
        r#"{"item":"command","op":"copy_buffer","src":3,"dst":0,"src_offset":0,"dst_offset":0,"size":8}"#,
        "",
        "G2 $.queues[0].batches[0].items[0]",
    ),
    // repeated signal
    (
        "graphics",
        "",
        r#",{"signal":{"value":1,"stage":"ALL_COMMANDS"}}"#,
        "G9 $.queues[0].batches[1].signal",
    ),
];

fn answer_to(alloc: Global, family: &str, items: &str, more: &str) -> Result<String, Fail> {
    let file = FILE.replace(alloc, "FAMILY", family)?;
    let file = file.replace(alloc, "ITEMS", items)?;
    let file = file.replace(alloc, "MORE", more)?;
    Ok(judge_shape(alloc, file.as_bytes())?)
}

#[test]
fn the_first_fault_of_each_vector(rt: HostRuntime) -> Result<(), Fail> {
    let alloc = rt.alloc();
    for (family, items, more, answer) in &ROWS {
        let found = answer_to(alloc, family, items, more)?;
        assert!(rt; found.as_str() == *answer, "{items}: {found}");
    }
    Ok(())
}
