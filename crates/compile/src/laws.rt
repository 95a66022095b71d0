//! The law of the compiler.

ghost use Rattle.compile.specs.Right.{IsRightFor};
ghost use Rattle.compile_record.specs.Recorded.{OfRecorded};
ghost use Rattle.law_meaning.specs.DeclaredLaws.{HasDeclaredOrder};

use law_meaning::{declared_laws, meaning_laws};
use law_sound::sound_program_law;
use law_valid::faultless_law;

/// What is compiled of a valid frame's kept passes is right for the frame: it breaks no rule, is sound, and leaves the bytes
/// that the frame means (`right`). Some order of its nodes has the commands as the frame declares them (`in_order`). It does
/// nothing.
pub fn compile_law()
    ensures right { OfRecorded (λ frame made. IsRightFor frame made.program) }
    ensures in_order { OfRecorded (λ frame made. HasDeclaredOrder frame made.kept made.program) }
{
    faultless_law();
    sound_program_law();
    declared_laws();
    meaning_laws();
}
