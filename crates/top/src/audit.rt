//! The command `audit`.

ghost use Rattle.std.specs.Prelude.{◌≡◌, ◌⊎◌, ◌≤◌, ◌++◌, length, IfOk, Ok};
ghost use Rattle.device_audit.specs.Trace.{trace_of};
ghost use Rattle.device_audit.specs.Verdicts.{IfRun};
ghost use Rattle.check_program.specs.Sound.{IsSound};
ghost use Rattle.report.specs.Audits.{audit_text};
ghost use Rattle.report.specs.declared.audit.AuditLine.TheVariants as lines;
ghost use Rattle.device_model.specs.Devices.{IsComplete};
ghost use Rattle.top.specs.Audits.{AuditsFile, AuditsTrace, Judges, line_answer, verdict_answer};
ghost use Rattle.answer.specs.Plain.{Rejects, done};
ghost use Rattle.cli.specs.declared.form.Form.TheVariants.{Line};
ghost use Rattle.device_run.specs.Runs.{read_by};
ghost use Rattle.top.specs.Texts.{readbacks_text};

use crate::readbacks::add_readbacks;
use answer::{Answer, AnswerStatus, checked, done, program_refusal};
use base::{Event, NoMemory};
use check_program::Checked;
use cli::Form;
use compile_file::valid_program;
use device::Device;
use device_audit::{TraceError, Verdict, audit, read_trace, recording_in};
use file_program::ProgramReadError;
use program::ValidProgram;
use report::{AuditLine, audit_text};
use std::alloc::Global;
use std::thread::Threads;

// The answer to a text that is no trace, or to a trace that is no run.
fn line_answer(alloc: Global, status: AnswerStatus, line: &AuditLine) -> Result<Answer, NoMemory>
    ensures { IfOk result (λ answer. answer ≡ line_answer status line.now) }
{
    Ok(Answer {
        status,
        text: audit_text(alloc, line)?,
    })
}

// The answer to a run: how many events it has, and what the host has read.
fn accepted(alloc: Global, device: &Device) -> Result<Answer, NoMemory>
    requires complete { IsComplete device.now }
    requires few { length device.now.history ≤ 65536 }
    ensures run { IfOk result (λ answer. answer ≡ done (audit_text (lines.Run (length device.now.history)) ++ readbacks_text (read_by device.now) (length device.now.program.readbacks))) }
{
    let events = device.history().len() as u32;
    let mut text = audit_text(alloc, &AuditLine::Run { events })?;
    add_readbacks(&mut text, device)?;
    Ok(done(text))
}

fn verdict_answer(alloc: Global, verdict: &Verdict) -> Result<Answer, NoMemory>
    requires complete { IfRun IsComplete verdict.now }
    requires few { IfRun (λ device. length device.history ≤ 65536) verdict.now }
    ensures verdict { IfOk result (λ answer. answer ≡ verdict_answer verdict.now) }
{
    match verdict {
        Verdict::Run(device) => accepted(alloc, device),
        Verdict::NotEnabled { at } => {
            line_answer(
                alloc,
                AnswerStatus::Rejected,
                &AuditLine::NotEnabled { at: *at },
            )
        }
        Verdict::Unfinished { node } => {
            line_answer(
                alloc,
                AnswerStatus::Rejected,
                &AuditLine::Unfinished { node: *node },
            )
        }
    }
}

fn judge<R: Threads + Sync>(
    rt: &R,
    alloc: Global,
    program: &Checked,
    events: &[Event],
) -> Result<Answer, NoMemory>
    requires sound { IsSound program.now.program }
    requires few { length events.now ≤ 65536 }
    ensures judges { IfOk result (Judges program.now.program events.now) }
{
    let verdict = audit(rt, alloc, program, events)?;
    verdict_answer(alloc, &verdict)
}

fn audit_events<R: Threads + Sync>(
    rt: &R,
    alloc: Global,
    program: ValidProgram,
    events: &[Event],
) -> Result<Answer, NoMemory>
    requires { length events.now ≤ 65536 }
    ensures program { IfOk result (λ answer. Judges program events.now answer ⊎ Rejects Line program answer) }
{
    match checked(alloc, Form::Line, program) {
        Ok(checked) => judge(rt, alloc, &checked, events),
        Err(answer) => answer,
    }
}

fn audit_trace<R: Threads + Sync>(
    rt: &R,
    alloc: Global,
    program: ValidProgram,
    trace: &[u8],
) -> Result<Answer, NoMemory>
    ensures trace { IfOk result (AuditsTrace (Ok program) (trace_of trace.now)) }
{
    match read_trace(alloc, trace) {
        Ok(events) => audit_events(rt, alloc, program, events.as_slice()),
        Err(TraceError::Text { line }) => {
            line_answer(alloc, AnswerStatus::Refused, &AuditLine::Text { line })
        }
        Err(TraceError::Limit { events }) => {
            line_answer(alloc, AnswerStatus::Refused, &AuditLine::Limit { events })
        }
        Err(TraceError::NoMemory) => Err(NoMemory),
    }
}

/// The answer to the bytes of a submission and a trace.
pub fn audit_file<R: Threads + Sync>(
    rt: &R,
    alloc: Global,
    bytes: &[u8],
) -> Result<Answer, NoMemory>
    ensures file { IfOk result (AuditsFile bytes.now) }
{
    let recording = recording_in(bytes);
    match valid_program(alloc, recording.submission) {
        Ok(program) => audit_trace(rt, alloc, program, recording.trace),
        Err(ProgramReadError::Refused(fault)) => program_refusal(alloc, Form::Line, &fault),
        Err(ProgramReadError::NoMemory) => Err(NoMemory),
    }
}
