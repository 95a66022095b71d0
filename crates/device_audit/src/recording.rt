//! A submission and a recorded run of it.

ghost use Rattle.std.specs.Prelude.{◌≡◌};
ghost use Rattle.device_audit.specs.Recordings.{submission_in, trace_in};

use crate::trace_lines::cut_at;

/// A submission, and a trace that may be a run of it.
#[derive(Clone, Copy)]
pub struct Recording<'a> {
    pub submission: &'a [u8],
    pub trace: &'a [u8],
}

/// A submission in one line and a trace behind it. Without a line feed all is the submission, and the trace is empty.
pub fn recording_in(bytes: &[u8]) -> Recording<'_>
    ensures submission { result.submission.now ≡ submission_in bytes.entry.now }
    ensures trace { result.trace.now ≡ trace_in bytes.entry.now }
{
    match cut_at(bytes, b'\n') {
        Some(cut) => Recording {
            submission: cut.front,
            trace: cut.rest,
        },
        None => Recording {
            submission: bytes,
            trace: &[],
        },
    }
}
