//! The commands that read a submission.

ghost use Rattle.std.specs.Prelude.{◌≡◌, ◌⊎◌, IfOk, IfErr};
ghost use Rattle.check_program.specs.Sound.{IsSound};
ghost use Rattle.answer.specs.Answers.{Accepts, AnswersProgram, AnswersProgramFile};
ghost use Rattle.compile_file.specs.Files.{program_file};
ghost use Rattle.answer.specs.Plain.{Rejects, rejection};

use crate::AnswerStatus;
use crate::answer::{Answer, done, program_refusal};
use crate::form::submission_form;
use base::NoMemory;
use check_program::{CheckError, Checked, Hazard, check};
use cli::{Form, SubmissionCommand};
use compile_file::valid_program;
use file_program::ProgramReadError;
use program::ValidProgram;
use report_json::{check_told, hazard_told};
use std::alloc::Global;

/// The answer to the bytes of a submission.
pub fn answer_program_file(
    alloc: Global,
    asked: SubmissionCommand,
    bytes: &[u8],
) -> Result<Answer, NoMemory>
    ensures file { IfOk result (AnswersProgramFile asked (program_file bytes.now)) }
{
    match valid_program(alloc, bytes) {
        Ok(program) => answer_program(alloc, asked, program),
        Err(ProgramReadError::Refused(fault)) => program_refusal(
            alloc,
            submission_form(asked),
            &fault,
        ),
        Err(ProgramReadError::NoMemory) => Err(NoMemory),
    }
}

fn answer_program(
    alloc: Global,
    asked: SubmissionCommand,
    program: ValidProgram,
) -> Result<Answer, NoMemory>
    ensures program { IfOk result (AnswersProgram asked program) }
{
    match asked {
        SubmissionCommand::Check { form } => check_program(alloc, form, program),
    }
}

// Sound or not.
fn check_program(alloc: Global, form: Form, program: ValidProgram) -> Result<Answer, NoMemory>
    ensures checked { IfOk result (λ answer. Accepts form program answer ⊎ Rejects form program answer) }
{
    let nodes = program.node_count();
    match checked(alloc, form, program) {
        Ok(_) => Ok(done(check_told(alloc, form, nodes)?)),
        Err(answer) => answer,
    }
}

/// The program, where it is sound, or else the answer to it, as JSON where that is asked for.
pub fn checked(
    alloc: Global,
    form: Form,
    program: ValidProgram,
) -> Result<Checked, Result<Answer, NoMemory>>
    ensures ok { IfOk result (λ checked. (checked.program ≡ program) × IsSound program) }
    ensures err { IfErr result (λ end. IfOk end (Rejects form program)) }
{
    match check(alloc, program) {
        Ok(checked) => Ok(checked),
        Err(CheckError::Refused(hazard, _)) => Err(rejection(alloc, form, &hazard)),
        Err(CheckError::NoMemory) => Err(Err(NoMemory)),
    }
}

// The answer to a program that is not sound.
fn rejection(alloc: Global, form: Form, hazard: &Hazard) -> Result<Answer, NoMemory>
    ensures { IfOk result (λ answer. answer ≡ rejection form hazard.now) }
{
    Ok(Answer {
        status: AnswerStatus::Rejected,
        text: hazard_told(alloc, form, hazard)?,
    })
}
