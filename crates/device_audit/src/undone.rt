//! Which nodes events leave undone.

ghost use Rattle.std.specs.Prelude.{◌≡◌, IfOk, IfSome, IfNone, false};
ghost use Rattle.std.specs.List.{position};
ghost use Rattle.device_audit.specs.Internal.Following.{ended_by, AreEnded, AreMarked, IsLeastUnended, Marks};

use base::{Event, NoMemory};
use std::alloc::Global;

// The node that is done with the event.
fn ended_by(event: &Event) -> Option<u32>
    ensures { result ≡ ended_by event.now }
{
    match *event {
        Event::End { node } | Event::Sync { node } | Event::Host { node } => Some(node),
        _ => None,
    }
}

// The node that is done with the event is marked.
fn mark(done: &mut Vec<bool>, event: &Event)
    ensures { Marks done.old.items done.new.items event.now }
{
    if let Some(node) = ended_by(event) {
        if (node as usize) < done.len() {
            done[node as usize] = true;
        }
    }
}

// Whether each of the first nodes is done with the events.
fn marked(alloc: Global, events: &[Event], count: u32) -> Result<Vec<bool>, NoMemory>
    ensures { IfOk result (λ done. AreMarked done.items events.now count) }
{
    let mut done = Vec::from_elem(alloc, false, count as usize)?;
    for event in events {
        mark(&mut done, event);
    }
    Ok(done)
}

/// The least of so many nodes that no event has ended.
pub(crate) fn least_undone(
    alloc: Global,
    events: &[Event],
    count: u32,
) -> Result<Option<u32>, NoMemory>
    ensures some { IfOk result (λ least. IfSome least (IsLeastUnended events.now count)) }
    ensures none { IfOk result (λ least. IfNone least (AreEnded events.now count)) }
{
    let done = marked(alloc, events, count)?;
    match done.iter().position(|done| !*done) {
        Some(node) => Ok(Some(node as u32)),
        None => Ok(None),
    }
}
