//! What a command answers, before it is written.

ghost use Rattle.std.specs.Prelude.{◌≡◌, IfOk};
ghost use Rattle.answer.specs.Plain.{done, refusal, program_refusal};

use crate::AnswerStatus;
use base::{NoMemory, Text};
use cli::Form;
use frame::FrameFault;
use program::ProgramFault;
use report_json::{frame_fault_told, program_fault_told};
use std::alloc::Global;

/// A status, and the whole text that goes with it.
#[derive(Drop)]
pub struct Answer {
    /// How the command ended.
    pub status: AnswerStatus,
    /// The text, in lines that end with a line feed each.
    pub text: Text,
}

/// The whole text of a command that was done.
pub fn done(text: Text) -> Answer
    ensures { result ≡ done text }
{
    Answer {
        status: AnswerStatus::Done,
        text,
    }
}

/// The answer to a frame file with a fault, as JSON where that is asked for.
pub fn refusal(alloc: Global, form: Form, fault: &FrameFault) -> Result<Answer, NoMemory>
    ensures { IfOk result (λ answer. answer ≡ refusal form fault.now) }
{
    Ok(Answer {
        status: AnswerStatus::Refused,
        text: frame_fault_told(alloc, form, fault)?,
    })
}

/// The answer to a submission with a fault, as JSON where that is asked for.
pub fn program_refusal(alloc: Global, form: Form, fault: &ProgramFault) -> Result<Answer, NoMemory>
    ensures { IfOk result (λ answer. answer ≡ program_refusal form fault.now) }
{
    Ok(Answer {
        status: AnswerStatus::Refused,
        text: program_fault_told(alloc, form, fault)?,
    })
}
