//! Frames that fly, and files of frames that do not.

use crate::given::gives;
use std::alloc::{AllocError, Global};
use std::test::Fail;
use test_calls::Status;

// A frame that adds one to what `b` holds, and exports it.
pub(crate) const COUNTS: &str =
    r#"{"format":1,"queues":[{"name":"g","family":"graphics"}],"resources":[{"name":"b","buffer":4,"import":"01000000"},{"name":"c","buffer":4}],"passes":[{"name":"p","queue":"g","reads":[],"writes":[{"new":"c"},{"change":"b"}],"ops":[{"op":"map","src":"b","dst":"c","fun":"add","value":1},{"op":"copy_buffer","src":"c","dst":"b","src_offset":0,"dst_offset":0,"size":4}]}],"exports":["c"]}"#;

const COUNTED: &str =
    "frame 0\nexport c 4\n02000000\nframe 1\nexport c 4\n03000000\nframe 2\nexport c 4\n04000000\n";

const ALONE: &str =
    "frame 0\nexport c 4\n02000000\nframe 1\nexport c 4\n02000000\nframe 2\nexport c 4\n02000000\n";

// So many of these lines, with a line feed behind each but the last.
pub(crate) fn lines_of(alloc: Global, line: &str, count: u32) -> Result<String, AllocError> {
    let mut text = String::from_str(alloc, line)?;
    for _ in 1..count {
        text.push_str("\n")?;
        text.push_str(line)?;
    }
    Ok(text)
}

// Command lines, and what they print of three frames that count.
const LINES: [(&str, Status, &str); 8] = [
    ("flight --persist b --depth 1", Status::Done, COUNTED),
    ("flight --persist b", Status::Done, COUNTED),
    ("flight --persist b --depth 3", Status::Done, COUNTED),
    (
        "flight --depth 8 --workers 4 --persist x,b --tend 1",
        Status::Done,
        COUNTED,
    ),
    ("flight", Status::Done, ALONE),
    ("flight --depth 1", Status::Done, ALONE),
    ("flight --persist c", Status::Refused, "fault L3 0 c\n"),
    ("flight --persist", Status::Words, "words\n"),
];

#[test]
fn three_frames(rt: HostRuntime) -> Result<(), Fail> {
    let alloc = rt.alloc();
    let file = lines_of(alloc, COUNTS, 3)?;
    for (line, status, text) in &LINES {
        gives(&rt, alloc, line, file.as_str(), *status, text)?;
    }
    Ok(())
}

// A piece of the second line, another in its place, and what `flight --persist b` prints.
const SECOND: [(&str, &str, Status, &str); 4] = [
    (
        r#""import":"01000000"}"#,
        r#""import":"ffffff00"}"#,
        Status::Done,
        "frame 0\nexport c 4\n02000000\nframe 1\nexport c 4\n03000000\n",
    ),
    (
        r#""format":1"#,
        r#""format":3"#,
        Status::Refused,
        "frame 1 fault F3 $.format\n",
    ),
    ("graphics", "compute", Status::Refused, "fault L2 1\n"),
    (
        r#""buffer":4,"import":"01000000"},{"name":"c","buffer":4}"#,
        r#""buffer":8,"import":"0100000000000000"},{"name":"c","buffer":8}"#,
        Status::Refused,
        "fault L3 1 b\n",
    ),
];

fn two_lines(alloc: Global, second: &str) -> Result<String, AllocError> {
    let mut file = String::from_str(alloc, COUNTS)?;
    file.push_str("\n")?;
    file.push_str(second)?;
    file.push_str("\n")?;
    Ok(file)
}

fn with_second(alloc: Global, old: &str, new: &str) -> Result<String, AllocError> {
    let second = COUNTS.replace(alloc, old, new)?;
    two_lines(alloc, second.as_str())
}

#[test]
fn second_lines(rt: HostRuntime) -> Result<(), Fail> {
    let alloc = rt.alloc();
    for (old, new, status, text) in &SECOND {
        let file = with_second(alloc, old, new)?;
        gives(
            &rt,
            alloc,
            "flight --persist b",
            file.as_str(),
            *status,
            text,
        )?;
    }
    Ok(())
}

// How often a line stands in a file, and what is printed of it.
const COUNTS_OF_LINES: [(&str, u32, &str); 4] = [
    ("", 1, "fault L1\n"),
    ("\n", 1, "frame 0 fault F1 $\n"),
    ("{", 64, "frame 0 fault F1 $\n"),
    ("{", 65, "fault L1\n"),
];

#[test]
fn counts_of_lines(rt: HostRuntime) -> Result<(), Fail> {
    let alloc = rt.alloc();
    for (line, count, text) in &COUNTS_OF_LINES {
        let file = lines_of(alloc, line, *count)?;
        gives(&rt, alloc, "flight", file.as_str(), Status::Refused, text)?;
    }
    Ok(())
}
