//! Files that differ from a good one in one piece, each with the place of its first fault, by hand from the format.

use crate::subfile_judge::{Row, all, judge_bytes};
use std::test::Fail;

// A file of format 2 with each member that is not in an item.
const FILE: &str =
    r#"{"format":2,"memories":[{"size":8},{"import":"00fFA07e"}],"pieces":[{"buffer":4,"memory":1,"offset":3},{"image":[2,3],"texel":"r8","layers":8,"memory":0,"offset":256,"sharing":"concurrent"}],"queues":[{"family":"graphics","batches":[{"waits":[{"queue":1,"value":5,"stage":"COPY|CLEAR"}],"items":[],"signal":{"value":6,"stage":"HOST"}}]}],"readbacks":[9]}"#;

// Whole files.
const FILES: [(&str, &str); 18] = [
    ("", "G10 $"),
    ("{\"format\":1", "G10 $"),
    ("{\"format\":1e999}", "G10 $"),
    ("{\"format\":\"\\ud800\"}", "G10 $"),
    ("null", "G11 $"),
    ("[{\"format\":3}]", "G11 $"),
    ("{}", "G11 $.format"),
    ("{\"format\":1.0}", "G11 $.format"),
    ("{\"format\":-0}", "G11 $.format"),
    ("{\"format\":0}", "G11 $.format"),
    ("{\"a\":0,\"format\":3}", "G11 $.format"),
    ("{\"format\":18446744073709551616}", "G11 $.format"),
    ("{\"format\":1,\"format\":3}", "G11 $.format"),
    ("{\"format\":3,\"format\":1}", "G11 $.memories"),
    (
        "{\"format\":1,\"memories\":[],\"pieces\":[{\"buffer\":1,\"memory\":0,\"offset\":0,\"sharing\":\"exclusive\"}]}",
        "G11 $.pieces[0].sharing",
    ),
    (
        "{\"format\":2,\"memories\":[],\"pieces\":[{\"buffer\":1,\"memory\":0,\"offset\":0,\"sharing\":\"exclusive\"}]}",
        "G11 $.queues",
    ),
    (
        "{\"format\":1,\"memories\":[],\"pieces\":[{\"image\":[1,1],\"texel\":\"r8\",\"layers\":1,\"memory\":0,\"offset\":0}]}",
        "G11 $.pieces[0].layers",
    ),
    (
        "{\"format\":1,\"memories\":[],\"pieces\":[],\"queues\":[],\"readbacks\":[]}",
        "program",
    ),
];

#[test]
fn whole_files(rt: HostRuntime) -> Result<(), Fail> {
    let alloc = rt.alloc();
    let no_text = judge_bytes(alloc, b"{\"format\":\"\xff\"}")?;
    assert!(rt; no_text.as_str() == "G10 $");
    for (file, answer) in &FILES {
        let found = judge_bytes(alloc, file.as_bytes())?;
        assert!(rt; found.as_str() == *answer, "{file}: {found}");
    }
    Ok(())
}

// The program and its memories.
const PROGRAM: [Row; 20] = [
    ("\"format\":2", "\"format\":1", "G11 $.pieces[1].layers"),
    ("\"memories\":[", "\"m\":[", "G11 $.memories"),
    ("\"memories\":[", "\"memories\":5,\"m\":[", "G11 $.memories"),
    ("\"pieces\":[", "\"p\":[", "G11 $.pieces"),
    ("\"pieces\":[", "\"pieces\":{},\"p\":[", "G11 $.pieces"),
    ("\"queues\":[", "\"q\":[", "G11 $.queues"),
    (",\"readbacks\":[9]", "", "G11 $.readbacks"),
    ("[9]", "[9,\"9\"]", "G11 $.readbacks[1]"),
    ("[9]", "[4294967295]", "program"),
    ("[9]", "[4294967296],\"a\":0", "G11 $.readbacks[0]"),
    ("[9]", "[],\"b\":0,\"a\":0,\"\\u00e9\":0", "G11 $.a"),
    ("[9]", "[],\"\\u00e9 \\n\":0", "G11 $.?? ?"),
    ("{\"size\":8}", "8", "G11 $.memories[0]"),
    ("{\"size\":8}", "{\"a\":8}", "G11 $.memories[0].size"),
    ("\"size\":8", "\"size\":0", "program"),
    (
        "\"size\":8",
        "\"size\":4294967296,\"import\":0",
        "G11 $.memories[0].size",
    ),
    (
        "\"size\":8",
        "\"size\":8,\"import\":\"00\",\"a\":0",
        "G11 $.memories[0].a",
    ),
    (
        "\"size\":8",
        "\"size\":8,\"import\":\"00\"",
        "G11 $.memories[0].import",
    ),
    ("00fFA07e", "0", "G11 $.memories[1].import"),
    ("00fFA07e\"", "\",\"offset\":0", "G11 $.memories[1].offset"),
];

// Pieces.
const PIECES: [Row; 24] = [
    ("\"buffer\":4,", "", "G11 $.pieces[0].buffer"),
    ("\"buffer\":4", "\"buffer\":0", "G11 $.pieces[0].buffer"),
    (
        "\"buffer\":4",
        "\"buffer\":4,\"image\":[1,1]",
        "G11 $.pieces[0].image",
    ),
    (
        "\"buffer\":4",
        "\"buffer\":4,\"layers\":1",
        "G11 $.pieces[0].layers",
    ),
    (
        "\"buffer\":4",
        "\"buffer\":4,\"import\":\"00\"",
        "G11 $.pieces[0].import",
    ),
    ("\"memory\":1,", "", "G11 $.pieces[0].memory"),
    ("\"memory\":1", "\"memory\":-1", "G11 $.pieces[0].memory"),
    (",\"offset\":3", "", "G11 $.pieces[0].offset"),
    ("\"offset\":3", "\"offset\":4294967295", "program"),
    (
        "\"offset\":3",
        "\"offset\":4294967296",
        "G11 $.pieces[0].offset",
    ),
    ("[2,3]", "[2]", "G11 $.pieces[1].image"),
    ("[2,3]", "[0,3]", "G11 $.pieces[1].image[0]"),
    ("\"texel\":\"r8\",", "", "G11 $.pieces[1].texel"),
    ("\"r8\"", "\"r16\"", "G11 $.pieces[1].texel"),
    ("\"layers\":8", "\"layers\":9", "G11 $.pieces[1].layers"),
    ("\"layers\":8", "\"layers\":0", "G11 $.pieces[1].layers"),
    (",\"sharing\":\"concurrent\"", "", "program"),
    ("\"concurrent\"", "\"shared\"", "G11 $.pieces[1].sharing"),
    ("\"concurrent\"", "true", "G11 $.pieces[1].sharing"),
    // the last of eight starts is the last multiple of 256, or past it
    ("\"offset\":256", "\"offset\":4294965498", "program"),
    (
        "\"offset\":256",
        "\"offset\":4294965499",
        "G11 $.pieces[1].layers",
    ),
    // after all else in the entry, and before the next list
    (
        "\"offset\":256",
        "\"offset\":4294967295,\"z\":0",
        "G11 $.pieces[1].z",
    ),
    (
        "\"layers\":8,\"memory\":0,\"offset\":256",
        "\"layers\":1,\"memory\":0,\"offset\":4294967295",
        "program",
    ),
    ("[2,3]", "[4294967295,4294967295]", "G11 $.pieces[1].layers"),
];

// Queues, and what is submitted to them beside items.
const QUEUES: [Row; 28] = [
    ("\"family\":\"graphics\",", "", "G11 $.queues[0].family"),
    ("\"graphics\"", "\"Graphics\"", "G11 $.queues[0].family"),
    ("\"batches\":[", "\"b\":[", "G11 $.queues[0].batches"),
    (
        "\"family\":\"graphics\"",
        "\"family\":\"compute\",\"name\":\"g\"",
        "G11 $.queues[0].name",
    ),
    (
        "{\"waits\":[",
        "[],{\"waits\":[",
        "G11 $.queues[0].batches[0]",
    ),
    (
        "\"waits\":[",
        "\"wait\":[",
        "G11 $.queues[0].batches[0].wait",
    ),
    (
        "\"waits\":[",
        "\"waits\":null,\"w\":[",
        "G11 $.queues[0].batches[0].waits",
    ),
    ("\"items\":[],", "", "program"),
    (
        "\"items\":[]",
        "\"items\":{}",
        "G11 $.queues[0].batches[0].items",
    ),
    (
        ",\"signal\":{\"value\":6,\"stage\":\"HOST\"}",
        "",
        "program",
    ),
    (
        "{\"value\":6,\"stage\":\"HOST\"}",
        "null",
        "G11 $.queues[0].batches[0].signal",
    ),
    (
        "\"value\":6,",
        "",
        "G11 $.queues[0].batches[0].signal.value",
    ),
    ("\"value\":6", "\"value\":0", "program"),
    ("\"value\":6", "\"value\":18446744073709551615", "program"),
    (
        "\"value\":6",
        "\"value\":18446744073709551616",
        "G11 $.queues[0].batches[0].signal.value",
    ),
    (
        "\"value\":6",
        "\"value\":6,\"queue\":0",
        "G11 $.queues[0].batches[0].signal.queue",
    ),
    ("HOST", "", "program"),
    ("HOST", "HOST|HOST", "program"),
    ("HOST", "HOST ", "G11 $.queues[0].batches[0].signal.stage"),
    (
        "HOST",
        "HOST_READ",
        "G11 $.queues[0].batches[0].signal.stage",
    ),
    (
        "COPY|CLEAR",
        "COPY||CLEAR",
        "G11 $.queues[0].batches[0].waits[0].stage",
    ),
    (
        "COPY|CLEAR",
        "|",
        "G11 $.queues[0].batches[0].waits[0].stage",
    ),
    ("COPY|CLEAR", "CLEAR|COPY|ALL_COMMANDS", "program"),
    (
        "\"queue\":1,",
        "",
        "G11 $.queues[0].batches[0].waits[0].queue",
    ),
    (
        "\"queue\":1",
        "\"queue\":4294967296",
        "G11 $.queues[0].batches[0].waits[0].queue",
    ),
    ("\"value\":5", "\"value\":0", "program"),
    (
        "\"value\":5",
        "\"value\":18446744073709551616",
        "G11 $.queues[0].batches[0].waits[0].value",
    ),
    (
        "\"value\":5",
        "\"value\":5,\"a\":0",
        "G11 $.queues[0].batches[0].waits[0].a",
    ),
];

#[test]
fn programs_and_memories(rt: HostRuntime) -> Result<(), Fail> {
    all(&rt, rt.alloc(), FILE, &PROGRAM)
}

#[test]
fn pieces(rt: HostRuntime) -> Result<(), Fail> {
    all(&rt, rt.alloc(), FILE, &PIECES)
}

#[test]
fn queues(rt: HostRuntime) -> Result<(), Fail> {
    all(&rt, rt.alloc(), FILE, &QUEUES)
}
