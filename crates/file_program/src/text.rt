//! The canonical text of a program.

ghost use Rattle.std.specs.Prelude.{◌≡◌, Ok, None, IfOk};
ghost use Rattle.program.specs.FirstFault.{first_fault};
ghost use Rattle.file_program.specs.Files.{program_of, program_text};
ghost use Rattle.file_program.specs.Programs.{FitsProgram};

use crate::whole_program::ProgramForm;
use base::{NoMemory, Text};
use file_json::{Typed, write_json};
use program::{Program, rule_laws};
use std::alloc::Global;

/// The canonical text of a program: its value in format 2, compact, with the members of each object in the byte order of
/// their names. From it a program is read again that was read, or that breaks no rule.
pub fn write_program(alloc: Global, program: &Program) -> Result<Text, NoMemory>
    ensures text { IfOk result (λ text. text ≡ program_text program.now) }
    ensures again { IfOk result (λ text. FitsProgram program.now → program_of text ≡ Ok program.now) }
    ensures good { IfOk result (λ text. first_fault program.now ≡ None → program_of text ≡ Ok program.now) }
{
    rule_laws();
    ProgramForm::look(program);
    write_json::<ProgramForm>(alloc, program)
}
