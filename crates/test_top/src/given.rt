//! What command lines give.

use std::alloc::Global;
use std::process::Abort;
use std::sync::Wait;
use std::test::Fail;
use std::thread::Threads;
use test_calls::{Status, is_given};

// The status and the text of a command line on a file are these.
pub(crate) fn gives(
    rt: &(impl Threads + Wait + Sync + Abort),
    alloc: Global,
    line: &str,
    file: &str,
    status: Status,
    text: &str,
) -> Result<(), Fail> {
    assert!(rt;
        is_given(rt, alloc, line, file, status, text)?,
        "{line} on {file}"
    );
    Ok(())
}
