//! Files that differ from a good one in one piece, each with the place of its first fault, by hand from the format.

use base::{Leg, Path};
use file_frame::{FrameReadError, read_frame};
use frame::FrameFault;
use std::alloc::{AllocError, Global};
use std::process::Abort;
use std::test::Fail;

// A file of format 2 with each member.
const FILE: &str =
    r#"{"format":2,"queues":[{"name":"g","family":"graphics"}],"resources":[{"name":"b","buffer":4,"import":"00fFA07e"},{"name":"im","image":[2,3],"texel":"r8","layers":8,"sharing":"concurrent"}],"passes":[{"name":"p","queue":"g","reads":["b","im/7"],"writes":[{"new":"im/0"}],"ops":[{"op":"draw","dst":"im/0","clear":1,"rects":[{"x":0,"y":0,"width":1,"height":1,"mix":"xor","value":5}]}],"side_effect":true}],"exports":["im"]}"#;

// What the file is with another piece in the place of one of its pieces: `frame`, or the number and place of the fault.
fn judge(alloc: Global, piece: &str, other: &str) -> Result<String, AllocError> {
    judge_bytes(alloc, FILE.replace(alloc, piece, other)?.as_bytes())
}

fn judge_bytes(alloc: Global, bytes: &[u8]) -> Result<String, AllocError> {
    match read_frame(alloc, bytes) {
        Ok(_) => String::from_str(alloc, "frame"),
        Err(FrameReadError::NoMemory) => String::from_str(alloc, "no memory"),
        Err(FrameReadError::Refused(fault)) => told(alloc, &fault),
    }
}

fn told(alloc: Global, fault: &FrameFault) -> Result<String, AllocError> {
    let path = written(alloc, &fault.location)?;
    format!(in alloc; "F{} {}", fault.number, path.as_str())
}

// Each byte of a member that is not printable ASCII stands as `?`.
fn written(alloc: Global, path: &Path) -> Result<String, AllocError> {
    let mut text = String::from_str(alloc, "$")?;
    for leg in path.as_slice() {
        match leg {
            Leg::Member(name) => {
                text.push('.')?;
                for byte in name.as_slice() {
                    text.push(if (32..127).contains(byte) {
                        *byte as char
                    } else {
                        '?'
                    })?;
                }
            }
            Leg::Position(at) => text.push_str(format!(in alloc; "[{at}]")?.as_str())?,
        }
    }
    Ok(text)
}

// Whole files.
const FILES: [(&str, &str); 19] = [
    ("", "F1 $"),
    ("{\"format\":1", "F1 $"),
    ("{\"format\":1e999}", "F1 $"),
    ("{\"format\":\"\\ud800\"}", "F1 $"),
    ("null", "F2 $"),
    ("[{\"format\":3}]", "F2 $"),
    ("{}", "F2 $.format"),
    ("{\"format\":1.0}", "F2 $.format"),
    ("{\"format\":1e0}", "F2 $.format"),
    ("{\"format\":-0}", "F2 $.format"),
    ("{\"format\":4294967296}", "F2 $.format"),
    ("{\"format\":4294967295}", "F3 $.format"),
    ("{\"format\":0}", "F3 $.format"),
    ("{\"queues\":0,\"a\":0,\"format\":3}", "F3 $.format"),
    ("{\"format\":1,\"format\":3}", "F3 $.format"),
    ("{\"format\":3,\"format\":1}", "F2 $.queues"),
    (
        "{\"format\":1,\"queues\":[],\"resources\":[{\"name\":\"b\",\"buffer\":1,\"sharing\":\"exclusive\"}]}",
        "F2 $.resources[0].sharing",
    ),
    (
        "{\"format\":1,\"queues\":[],\"resources\":[],\"passes\":[],\"exports\":[\"im\",\"im/0\"]}",
        "F2 $.exports[1]",
    ),
    (
        "{\"format\":1,\"queues\":[],\"resources\":[],\"passes\":[],\"exports\":[\"im\"]}",
        "frame",
    ),
];

#[test]
fn whole_files(rt: HostRuntime) -> Result<(), Fail> {
    let alloc = rt.alloc();
    let no_text = judge_bytes(alloc, b"{\"format\":\"\xff\"}")?;
    assert!(rt; no_text.as_str() == "F1 $");
    for (file, answer) in &FILES {
        let found = judge_bytes(alloc, file.as_bytes())?;
        assert!(rt; found.as_str() == *answer, "{file}: {found}");
    }
    Ok(())
}

// A piece, another in its place, and the answer.
type Row = (&'static str, &'static str, &'static str);

// The frame and its queues.
const FRAME: [Row; 19] = [
    ("im/7", "im/1", "frame"),
    ("\"format\":2", "\"format\":1", "F2 $.resources[1].layers"),
    ("\"queues\":[", "\"lines\":[", "F2 $.queues"),
    (
        "\"resources\":[",
        "\"resources\":5,\"r\":[",
        "F2 $.resources",
    ),
    ("\"passes\":[", "\"passes\":{},\"p\":[", "F2 $.passes"),
    (",\"exports\":[\"im\"]", "", "F2 $.exports"),
    ("[\"im\"]}", "[\"im\",5]}", "F2 $.exports[1]"),
    ("[\"im\"]}", "[\"im\",\"im/8\"],\"z\":0}", "F2 $.exports[1]"),
    ("[\"im\"]}", "[],\"b\":0,\"a\":0,\"\\u00e9\":0}", "F2 $.a"),
    ("[\"im\"]}", "[],\"b\":0,\"a\":0,\"Z\":0}", "F2 $.Z"),
    ("[\"im\"]}", "[],\"\\u00e9 \\n\":0}", "F2 $.?? ?"),
    ("{\"name\":\"g\",", "0,{\"name\":\"g\",", "F2 $.queues[0]"),
    ("\"name\":\"g\",\"", "\"", "F2 $.queues[0].name"),
    ("\"name\":\"g\"", "\"name\":\"\"", "F2 $.queues[0].name"),
    ("\"name\":\"g\"", "\"name\":\"a/0\"", "F2 $.queues[0].name"),
    (
        "\"name\":\"g\"",
        "\"name\":\"012345678901234567890123456789012\"",
        "F2 $.queues[0].name",
    ),
    ("\"graphics\"", "\"Graphics\"", "F2 $.queues[0].family"),
    (
        ",\"family\":\"graphics\"}",
        ",\"a\":0}",
        "F2 $.queues[0].family",
    ),
    (
        "\"graphics\"",
        "\"transfer\",\"count\":1",
        "F2 $.queues[0].count",
    ),
];

// Resources.
const RESOURCES: [Row; 30] = [
    ("\"name\":\"b\",", "", "F2 $.resources[0].name"),
    ("\"buffer\":4,", "", "F2 $.resources[0].buffer"),
    ("\"buffer\":4", "\"buffer\":0", "F2 $.resources[0].buffer"),
    ("\"buffer\":4", "\"buffer\":4294967295", "frame"),
    (
        "\"buffer\":4",
        "\"buffer\":4294967296",
        "F2 $.resources[0].buffer",
    ),
    ("\"buffer\":4", "\"buffer\":4.0", "F2 $.resources[0].buffer"),
    (
        "\"buffer\":4",
        "\"buffer\":4,\"image\":[1,1]",
        "F2 $.resources[0].image",
    ),
    (
        "\"buffer\":4",
        "\"buffer\":4,\"texel\":\"r8\"",
        "F2 $.resources[0].texel",
    ),
    (
        "\"buffer\":4",
        "\"buffer\":4,\"layers\":1",
        "F2 $.resources[0].layers",
    ),
    (",\"import\":\"00fFA07e\"", "", "frame"),
    ("00fFA07e", "", "frame"),
    ("00fFA07e", "0", "F2 $.resources[0].import"),
    ("00fFA07e", "0g", "F2 $.resources[0].import"),
    ("\"00fFA07e\"", "null", "F2 $.resources[0].import"),
    ("[2,3]", "[2]", "F2 $.resources[1].image"),
    ("[2,3]", "[0,3,\"\"]", "F2 $.resources[1].image"),
    ("[2,3]", "{}", "F2 $.resources[1].image"),
    ("[2,3]", "[0,-3]", "F2 $.resources[1].image[0]"),
    ("[2,3]", "[4294967295,-3]", "F2 $.resources[1].image[1]"),
    ("\"texel\":\"r8\",", "", "F2 $.resources[1].texel"),
    ("\"r8\"", "\"r16\"", "F2 $.resources[1].texel"),
    (",\"layers\":8", "", "frame"),
    ("\"layers\":8", "\"layers\":0", "F2 $.resources[1].layers"),
    ("\"layers\":8", "\"layers\":9", "F2 $.resources[1].layers"),
    ("\"layers\":8", "\"layers\":1.0", "F2 $.resources[1].layers"),
    (",\"sharing\":\"concurrent\"", "", "frame"),
    ("\"concurrent\"", "\"exclusive\"", "frame"),
    ("\"concurrent\"", "true", "F2 $.resources[1].sharing"),
    (
        "\"concurrent\"",
        "\"shared\",\"a\":0",
        "F2 $.resources[1].sharing",
    ),
    (
        "\"concurrent\"",
        "\"exclusive\",\"import\":\"00\"",
        "F2 $.resources[1].import",
    ),
];

// Passes, and what they read and write.
const PASSES: [Row; 27] = [
    ("\"name\":\"p\",", "", "F2 $.passes[0].name"),
    ("\"queue\":\"g\"", "\"queue\":0", "F2 $.passes[0].queue"),
    ("\"reads\":[\"b\",\"im/7\"],", "", "frame"),
    ("[\"b\",\"im/7\"]", "\"b\"", "F2 $.passes[0].reads"),
    ("[\"b\",\"im/7\"]", "[[]]", "F2 $.passes[0].reads[0]"),
    ("im/7", "im/", "F2 $.passes[0].reads[1]"),
    ("im/7", "im/8", "F2 $.passes[0].reads[1]"),
    ("im/7", "im/00", "F2 $.passes[0].reads[1]"),
    ("im/7", "im/-1", "F2 $.passes[0].reads[1]"),
    ("im/7", "im//0", "F2 $.passes[0].reads[1]"),
    ("im/7", "/0", "F2 $.passes[0].reads[1]"),
    ("im/7", "0", "frame"),
    ("im/7", "01234567890123456789012345678901/0", "frame"),
    ("\"writes\":[{\"new\":\"im/0\"}],", "", "frame"),
    ("{\"new\":\"im/0\"}", "\"im/0\"", "F2 $.passes[0].writes[0]"),
    (
        "{\"new\":\"im/0\"}",
        "{\"a\":0}",
        "F2 $.passes[0].writes[0].new",
    ),
    (
        "\"new\":\"im/0\"",
        "\"new\":\"im/a\"",
        "F2 $.passes[0].writes[0].new",
    ),
    ("\"new\":\"im/0\"", "\"change\":\"im/0\"", "frame"),
    (
        "\"new\":\"im/0\"",
        "\"change\":null",
        "F2 $.passes[0].writes[0].change",
    ),
    (
        "\"new\":\"im/0\"",
        "\"change\":\"im/0\",\"new\":\"im/0\"",
        "F2 $.passes[0].writes[0].change",
    ),
    (
        "\"new\":\"im/0\"",
        "\"new\":\"b\",\"old\":0",
        "F2 $.passes[0].writes[0].old",
    ),
    (
        "\"new\":\"im/0\"",
        "\"change\":\"b\",\"old\":0",
        "F2 $.passes[0].writes[0].old",
    ),
    (",\"side_effect\":true", "", "frame"),
    (
        "\"side_effect\":true",
        "\"side_effect\":1",
        "F2 $.passes[0].side_effect",
    ),
    (
        "\"side_effect\":true",
        "\"side_effect\":null",
        "F2 $.passes[0].side_effect",
    ),
    (
        "\"side_effect\":true",
        "\"waits\":0,\"side\":0",
        "F2 $.passes[0].side",
    ),
    ("\"ops\":[", "\"ops\":null,\"p\":[", "F2 $.passes[0].ops"),
];

// Operations and rectangles.
const OPS: [Row; 14] = [
    (
        "{\"op\":\"draw\"",
        "1,{\"op\":\"draw\"",
        "F2 $.passes[0].ops[0]",
    ),
    ("\"op\":\"draw\",", "", "F2 $.passes[0].ops[0].op"),
    ("\"draw\"", "\"paint\"", "F2 $.passes[0].ops[0].op"),
    (
        "\"dst\":\"im/0\"",
        "\"dst\":\"im/9\"",
        "F2 $.passes[0].ops[0].dst",
    ),
    ("\"clear\":1,", "", "frame"),
    (
        "\"clear\":1",
        "\"clear\":null",
        "F2 $.passes[0].ops[0].clear",
    ),
    (
        "\"clear\":1",
        "\"cleared\":1",
        "F2 $.passes[0].ops[0].cleared",
    ),
    (
        "\"rects\":[",
        "\"rects\":0,\"r\":[",
        "F2 $.passes[0].ops[0].rects",
    ),
    (
        "{\"x\":0",
        "{},{\"x\":0",
        "F2 $.passes[0].ops[0].rects[0].x",
    ),
    (
        "\"width\":1",
        "\"width\":-1",
        "F2 $.passes[0].ops[0].rects[0].width",
    ),
    ("\"mix\":\"xor\",", "", "frame"),
    ("\"xor\"", "\"add\"", "F2 $.passes[0].ops[0].rects[0].mix"),
    (
        "\"value\":5",
        "\"value\":5,\"z\":0",
        "F2 $.passes[0].ops[0].rects[0].z",
    ),
    (
        "\"draw\",\"dst\":\"im/0\",\"clear\":1,\"rects\":[",
        "\"box3\",\"src\":\"im/0\",\"dst\":\"im/1\",\"rects\":[",
        "F2 $.passes[0].ops[0].rects",
    ),
];

fn all(rt: &impl Abort, alloc: Global, rows: &[Row]) -> Result<(), Fail> {
    for (piece, other, answer) in rows {
        let found = judge(alloc, piece, other)?;
        assert!(rt; found.as_str() == *answer, "{piece} to {other}: {found}");
    }
    Ok(())
}

#[test]
fn frames_and_queues(rt: HostRuntime) -> Result<(), Fail> {
    all(&rt, rt.alloc(), &FRAME)
}

#[test]
fn resources(rt: HostRuntime) -> Result<(), Fail> {
    all(&rt, rt.alloc(), &RESOURCES)
}

#[test]
fn passes(rt: HostRuntime) -> Result<(), Fail> {
    all(&rt, rt.alloc(), &PASSES)
}

#[test]
fn operations(rt: HostRuntime) -> Result<(), Fail> {
    all(&rt, rt.alloc(), &OPS)
}
