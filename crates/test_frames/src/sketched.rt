//! Good frames for these tests, each sketched by a line of words.

use compile_groups::{Groups, groups_of};
use frame::{ValidFrame, validate_frame};
use frame_cull::{cull, versions_of};
use std::alloc::Global;
use test_sketch::{SketchError, sketched_frame};

/// The frame of a line. One that is refused is no sketch.
pub fn good(alloc: Global, line: &str) -> Result<ValidFrame, SketchError> {
    match validate_frame(alloc, sketched_frame(alloc, line)?) {
        Ok(good) => Ok(good),
        Err(_) => Err(SketchError::Word),
    }
}

/// The groups of a frame after culling.
pub fn groups(alloc: Global, frame: &ValidFrame) -> Result<Groups, SketchError> {
    let versions = versions_of(alloc, frame)?;
    let kept = cull(alloc, frame, &versions)?;
    Ok(groups_of(alloc, frame, &versions, &kept)?)
}
