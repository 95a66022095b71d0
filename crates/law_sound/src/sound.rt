//! What is compiled is sound.

ghost use Rattle.check_program.specs.Sound.{IsSound};
ghost use Rattle.compile_record.specs.Recorded.{OfRecorded};

use crate::bytes::bytes_law;
use crate::starts::starts_law;

/// A program that is compiled of a valid frame's kept passes is sound. It does nothing.
pub fn sound_program_law()
    ensures { OfRecorded (λ frame made. IsSound made.program) }
{
    bytes_law();
    starts_law();
}
