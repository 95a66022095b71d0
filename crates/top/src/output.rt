//! A text is written whole, or up to a fault.

ghost use Rattle.std.specs.Prelude.{◌≡◌, ◌<◌, ◌⊎◌};
ghost use Rattle.top.specs.Causes.{WriteCause};
ghost use Rattle.top.specs.Internal.Steps.{IsWritten};
ghost use Rattle.answer.specs.Statuses.{status_of};
ghost use Rattle.top.specs.Outcomes.{EndsAs};

use crate::Status;
use answer::AnswerStatus;
use base_io::{Put, Sink};

/// Passes the whole rest of the text at each write, and answers whether all of it was taken.
pub(crate) fn write_text<O: Sink>(output: &mut O, text: &[u8]) -> bool
    ensures { IsWritten text.now (O.taken output.old) (O.taken output.new) (O.faults output.old) (O.faults output.new) result }
{
    let mut rest = text;
    while !rest.is_empty() {
        match output.write(rest) {
            Put::Took(count) => rest = &rest[count..],
            Put::Failed => return false,
        }
    }
    true
}

/// Writes a text. A write fault takes the place of its status.
pub fn put<O: Sink>(output: &mut O, status: AnswerStatus, text: &[u8]) -> Status
    ensures ends { EndsAs status text.now (O.taken output.old) (O.taken output.new) result }
    ensures cause { WriteCause (O.faults output.old) (O.faults output.new) result }
    ensures either { (result ≡ status_of status) ⊎ (result ≡ Status.WriteFault) }
{
    if write_text(output, text) {
        Status::from(status)
    } else {
        Status::WriteFault
    }
}
