//! What `audit` answers.

ghost use Rattle.std.specs.Prelude.{◌≡◌, ◌++◌, OnOk, IfOk};
ghost use Rattle.report.specs.Audits.{audit_text, told_number};

use crate::hazard::add_number;
use base::{List, NoMemory, Text};
use base_text::Lines;
use std::alloc::Global;

/// The first line of what `audit` answers.
#[derive(Clone, Copy, Debug, PartialEq, Eq)]
pub enum AuditLine {
    /// The trace is a run of so many events.
    Run { events: u32 },
    /// This line of the trace, counted from 0, is the first that does not fit, or is missing.
    Text { line: u32 },
    /// The trace tells more events than are read.
    Limit { events: u32 },
    /// The event at this place, counted from 0, is the first that is not enabled.
    NotEnabled { at: u32 },
    /// All events are enabled in turn, and this node is the least that is not done.
    Unfinished { node: u32 },
}

fn add_told(text: &mut Text, words: &[u8], number: u32) -> Result<(), NoMemory>
    ensures { OnOk result (text.new ≡ text.old ++ told_number words.now number) }
{
    text.word(words)?;
    add_number(text, number)?;
    text.end_line()
}

fn add_run(text: &mut Text, events: u32) -> Result<(), NoMemory>
    ensures { OnOk result (text.new ≡ text.old ++ audit_text (AuditLine.Run events)) }
{
    text.word(b"run ")?;
    text.number(u64::from(events))?;
    text.word(b" events\n")
}

/// The line that tells whether a trace is a run, as `run 8 events` or `hazard A3 1`.
pub fn audit_text(alloc: Global, line: &AuditLine) -> Result<Text, NoMemory>
    ensures { IfOk result (λ text. text ≡ audit_text line.now) }
{
    let mut text = List::new(alloc);
    match *line {
        AuditLine::Run { events } => add_run(&mut text, events)?,
        AuditLine::Text { line } => add_told(&mut text, b"fault A1", line)?,
        AuditLine::Limit { events } => add_told(&mut text, b"fault A2", events)?,
        AuditLine::NotEnabled { at } => add_told(&mut text, b"hazard A3", at)?,
        AuditLine::Unfinished { node } => add_told(&mut text, b"hazard A4", node)?,
    }
    Ok(text)
}
