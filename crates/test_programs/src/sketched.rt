//! Programs for these tests, each sketched by a line of words.

use program::{ValidProgram, validate_program};
use std::alloc::Global;
use std::test::Fail;
use test_sketch::{SketchError, sketched_program};

/// The shaped program of a line. One that is refused is no sketch.
pub fn shaped(alloc: Global, line: &str) -> Result<ValidProgram, SketchError> {
    match validate_program(alloc, sketched_program(alloc, line)?) {
        Ok(shaped) => Ok(shaped),
        Err(_) => Err(SketchError::Word),
    }
}

const SKETCHES: [(&str, bool); 4] = [
    (
        "plain:16 buffer:16:0:0 read:0 ; graphics fill:0:16 signal:1",
        true,
    ),
    ("plain:16 buffer:16:0:0 ; graphics fill:1:16", false),
    (
        "plain:512 image:2:2:r32:0:0 buffer:16:0:256 ; graphics turn:0:UNDEFINED>GENERAL:COMPUTE_SHADER,>COMPUTE_SHADER,SHADER_STORAGE_WRITE ramp:0",
        true,
    ),
    ("plain:x", false),
];

#[test]
fn programs(rt: HostRuntime) -> Result<(), Fail> {
    let alloc = rt.alloc();
    for (line, good) in &SKETCHES {
        assert!(&rt; shaped(alloc, line).is_ok() == *good, "{line}");
    }
    Ok(())
}
