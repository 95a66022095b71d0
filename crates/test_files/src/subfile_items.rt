//! Items that differ from good ones in one piece, by hand from the format.

use crate::subfile_judge::{Row, all};
use std::test::Fail;

// One item of each kind: the numbers of their pieces tell them apart.
const ITEMS: &str =
    r#"{"format":1,"memories":[],"pieces":[],"queues":[{"family":"transfer","batches":[{"items":[{"item":"command","op":"copy_buffer","src":1,"dst":2,"src_offset":0,"dst_offset":0,"size":4},{"item":"global","src_stage":"COPY","src_access":"","dst_stage":"HOST","dst_access":"HOST_READ"},{"item":"buffer","piece":3,"src_stage":"CLEAR","src_access":"TRANSFER_WRITE","dst_stage":"COPY","dst_access":"TRANSFER_READ"},{"item":"image","piece":4,"from":"UNDEFINED","to":"GENERAL","src_stage":"COPY","src_access":"","dst_stage":"COPY","dst_access":""},{"item":"release","piece":5,"from_family":"transfer","to_family":"compute","from":"TRANSFER_DST_OPTIMAL","to":"SHADER_READ_ONLY_OPTIMAL","src_stage":"COPY","src_access":"","dst_stage":"COPY","dst_access":""},{"item":"acquire","piece":6,"from_family":"graphics","to_family":"transfer","src_stage":"COPY","src_access":"","dst_stage":"COPY","dst_access":""}]}]}],"readbacks":[]}"#;

const COMMANDS: [Row; 12] = [
    ("\"piece\":3", "\"piece\":4294967295", "program"),
    (
        "{\"item\":\"command\"",
        "[],{\"item\":\"command\"",
        "G11 $.queues[0].batches[0].items[0]",
    ),
    (
        "\"item\":\"command\",",
        "",
        "G11 $.queues[0].batches[0].items[0].item",
    ),
    (
        "\"command\"",
        "\"barrier\"",
        "G11 $.queues[0].batches[0].items[0].item",
    ),
    (
        "\"command\"",
        "[\"command\"]",
        "G11 $.queues[0].batches[0].items[0].item",
    ),
    (
        "\"command\"",
        "\"global\"",
        "G11 $.queues[0].batches[0].items[0].src_stage",
    ),
    (
        "\"copy_buffer\"",
        "\"copy\"",
        "G11 $.queues[0].batches[0].items[0].op",
    ),
    (
        "\"src\":1",
        "\"src\":\"1\"",
        "G11 $.queues[0].batches[0].items[0].src",
    ),
    ("\"dst\":2", "\"dst\":4294967295", "program"),
    (
        "\"dst\":2",
        "\"dst\":4294967296",
        "G11 $.queues[0].batches[0].items[0].dst",
    ),
    (
        ",\"size\":4",
        "",
        "G11 $.queues[0].batches[0].items[0].size",
    ),
    (
        "\"size\":4",
        "\"size\":4,\"word\":0,\"piece\":0",
        "G11 $.queues[0].batches[0].items[0].piece",
    ),
];

const BARRIERS: [Row; 17] = [
    (
        "\"global\",\"src_stage\":\"COPY\",",
        "\"global\",",
        "G11 $.queues[0].batches[0].items[1].src_stage",
    ),
    (
        "\"global\",",
        "\"global\",\"piece\":0,",
        "G11 $.queues[0].batches[0].items[1].piece",
    ),
    (
        "\"HOST_READ\"",
        "\"HOST\"",
        "G11 $.queues[0].batches[0].items[1].dst_access",
    ),
    (
        "\"HOST_READ\"",
        "0",
        "G11 $.queues[0].batches[0].items[1].dst_access",
    ),
    ("HOST_READ", "MEMORY_WRITE|SHADER_READ", "program"),
    (
        "\"HOST\"",
        "\"HOST_READ\"",
        "G11 $.queues[0].batches[0].items[1].dst_stage",
    ),
    (
        "\"piece\":3,",
        "",
        "G11 $.queues[0].batches[0].items[2].piece",
    ),
    (
        "\"piece\":3",
        "\"piece\":3,\"from\":\"GENERAL\"",
        "G11 $.queues[0].batches[0].items[2].from",
    ),
    (
        "\"TRANSFER_WRITE\"",
        "\"TRANSFER_WRITE|\"",
        "G11 $.queues[0].batches[0].items[2].src_access",
    ),
    (
        ",\"dst_stage\":\"COPY\",\"dst_access\":\"TRANSFER_READ\"",
        "",
        "G11 $.queues[0].batches[0].items[2].dst_stage",
    ),
    (
        ",\"dst_access\":\"TRANSFER_READ\"",
        "",
        "G11 $.queues[0].batches[0].items[2].dst_access",
    ),
    (
        "\"from\":\"UNDEFINED\",",
        "",
        "G11 $.queues[0].batches[0].items[3].from",
    ),
    (
        "\"UNDEFINED\"",
        "\"undefined\"",
        "G11 $.queues[0].batches[0].items[3].from",
    ),
    (
        ",\"to\":\"GENERAL\"",
        "",
        "G11 $.queues[0].batches[0].items[3].to",
    ),
    ("\"GENERAL\"", "1", "G11 $.queues[0].batches[0].items[3].to"),
    (
        "\"piece\":4",
        "\"piece\":4.0",
        "G11 $.queues[0].batches[0].items[3].piece",
    ),
    (
        "\"piece\":4",
        "\"piece\":4,\"to_family\":\"compute\"",
        "G11 $.queues[0].batches[0].items[3].to_family",
    ),
];

const TRANSFERS: [Row; 13] = [
    (
        "\"piece\":5,",
        "",
        "G11 $.queues[0].batches[0].items[4].piece",
    ),
    (
        "\"from_family\":\"transfer\",",
        "",
        "G11 $.queues[0].batches[0].items[4].from_family",
    ),
    (
        "\"to_family\":\"compute\"",
        "\"to_family\":2",
        "G11 $.queues[0].batches[0].items[4].to_family",
    ),
    (
        "\"from\":\"TRANSFER_DST_OPTIMAL\",\"to\":\"SHADER_READ_ONLY_OPTIMAL\",",
        "",
        "program",
    ),
    (
        "\"from\":\"TRANSFER_DST_OPTIMAL\",",
        "",
        "G11 $.queues[0].batches[0].items[4].from",
    ),
    (
        ",\"to\":\"SHADER_READ_ONLY_OPTIMAL\"",
        "",
        "G11 $.queues[0].batches[0].items[4].to",
    ),
    (
        "\"from\":\"TRANSFER_DST_OPTIMAL\",\"to\":\"SHADER_READ_ONLY_OPTIMAL\"",
        "\"to\":0",
        "G11 $.queues[0].batches[0].items[4].from",
    ),
    (
        "\"from\":\"TRANSFER_DST_OPTIMAL\",\"to\":\"SHADER_READ_ONLY_OPTIMAL\"",
        "\"from\":0",
        "G11 $.queues[0].batches[0].items[4].from",
    ),
    (
        "SHADER_READ_ONLY_OPTIMAL",
        "COLOR_ATTACHMENT_OPTIMAL",
        "program",
    ),
    (
        "SHADER_READ_ONLY_OPTIMAL",
        "SHADER_READ_ONLY",
        "G11 $.queues[0].batches[0].items[4].to",
    ),
    (
        "\"piece\":6",
        "\"piece\":6,\"layouts\":0",
        "G11 $.queues[0].batches[0].items[5].layouts",
    ),
    (
        "\"acquire\"",
        "\"acquired\"",
        "G11 $.queues[0].batches[0].items[5].item",
    ),
    ("\"acquire\"", "\"release\"", "program"),
];

#[test]
fn commands(rt: HostRuntime) -> Result<(), Fail> {
    all(&rt, rt.alloc(), ITEMS, &COMMANDS)
}

#[test]
fn barriers(rt: HostRuntime) -> Result<(), Fail> {
    all(&rt, rt.alloc(), ITEMS, &BARRIERS)
}

#[test]
fn transfers(rt: HostRuntime) -> Result<(), Fail> {
    all(&rt, rt.alloc(), ITEMS, &TRANSFERS)
}
