//! The text of a trace.

ghost use Rattle.std.specs.Prelude.{◌≡◌, ◌≤◌, length, IfOk, IfSome, IfNone, Some, None};
ghost use Rattle.device_audit.specs.Trace.{IsAnswer, counted_events, events_from, first_event, trace_of};
ghost use Rattle.device_audit.specs.declared.trace.TraceError.TheVariants as ends;

use crate::trace_lines::{count_of, cut_at, event_of};
use base::{Event, List, NoMemory};
use std::alloc::Global;
use thiserror::Error;

/// What is wrong with the text of a trace.
#[derive(Clone, Copy, Debug, PartialEq, Eq, Error)]
pub enum TraceError {
    /// The first line that does not fit, or is missing.
    #[error("line {line} of the trace does not fit")]
    Text { line: u32 },
    /// It tells more events than are read.
    #[error("the trace tells more than {events} events")]
    Limit { events: u32 },
    #[error("memory ran out")]
    NoMemory,
}

impl From<NoMemory> for TraceError {
    ghost from_gives = { λ _ e. e ≡ ends.NoMemory };

    fn from(_e: NoMemory) -> Self {
        TraceError::NoMemory
    }
}

// The event of the first line, and what follows it.
#[derive(Clone, Copy)]
struct TraceLine<'a> {
    event: Event,
    rest: &'a [u8],
}

fn next_trace_line(text: &[u8]) -> Option<TraceLine<'_>>
    ensures some { IfSome result (λ line. first_event text.entry.now ≡ Some (record { event = line.event; rest = line.rest.now })) }
    ensures none { IfNone result (first_event text.entry.now ≡ None) }
{
    let cut = cut_at(text, b'\n')?;
    match event_of(cut.front) {
        Some(event) => Some(TraceLine {
            event,
            rest: cut.rest,
        }),
        None => None,
    }
}

// So many events, from line 1 on, and nothing after them.
fn events_from(alloc: Global, text: &[u8], count: u32) -> Result<List<Event>, TraceError>
    requires { count ≤ 65536 }
    ensures { IsAnswer (events_from count 1 text.now) result }
{
    let mut events = List::new(alloc);
    let mut rest = text;
    for k in 0..count {
        match next_trace_line(rest) {
            Some(line) => {
                events.push(line.event)?;
                rest = line.rest;
            }
            None => return Err(TraceError::Text { line: k + 1 }),
        }
    }
    if !rest.is_empty() {
        return Err(TraceError::Text { line: count + 1 });
    }
    Ok(events)
}

fn counted_events(alloc: Global, count: Option<u32>, text: &[u8]) -> Result<List<Event>, TraceError>
    ensures { IsAnswer (counted_events count text.now) result }
{
    match count {
        Some(events) => {
            if events > 65536 {
                return Err(TraceError::Limit { events });
            }
            events_from(alloc, text, events)
        }
        None => Err(TraceError::Text { line: 0 }),
    }
}

fn events_of(alloc: Global, text: &[u8]) -> Result<List<Event>, TraceError>
    ensures { IsAnswer (trace_of text.now) result }
{
    match cut_at(text, b'\n') {
        Some(cut) => counted_events(alloc, count_of(cut.front), cut.rest),
        None => Err(TraceError::Text { line: 0 }),
    }
}

/// The events of a trace as it is printed: a line with their number, which is at most 65,536, and a line for each of them.
pub fn read_trace(alloc: Global, text: &[u8]) -> Result<List<Event>, TraceError>
    ensures events { IsAnswer (trace_of text.now) result }
    ensures few { IfOk result (λ events. length events ≤ 65536) }
{
    events_of(alloc, text)
}
