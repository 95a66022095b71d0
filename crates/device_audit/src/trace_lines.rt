//! Lines of a trace.

ghost use Rattle.std.specs.Prelude.{◌≡◌, ◌==◌, IfSome, IfNone, Some, None};
ghost use Rattle.std.specs.List.{position};
ghost use Rattle.std.specs.Str.{bytes_eq};
ghost use Rattle.device_audit.specs.TraceLines.{count_of, cut_at, event_named, event_of, kind_named, move_of};

use crate::numbers::number_of;
use base::{CacheMove, Event, MemoryRange, MoveKind};

/// What stands before and after a byte.
#[derive(Clone, Copy)]
pub(crate) struct Cut<'a> {
    pub front: &'a [u8],
    pub rest: &'a [u8],
}

fn first_place(text: &[u8], at: u8) -> Option<usize>
    ensures { result ≡ position (λ x. x == at) text.now }
{
    text.iter().position(|byte| *byte == at)
}

/// The text before the first such byte and after it; none where there is no such byte.
pub(crate) fn cut_at(text: &[u8], at: u8) -> Option<Cut<'_>>
    ensures some { IfSome result (λ c. cut_at at text.entry.now ≡ Some (record { front = c.front.now; rest = c.rest.now })) }
    ensures none { IfNone result (cut_at at text.entry.now ≡ None) }
{
    match first_place(text, at) {
        Some(place) => Some(Cut {
            front: &text[..place],
            rest: &text[place + 1..],
        }),
        None => None,
    }
}

fn is_word(text: &[u8], word: &[u8]) -> bool
    ensures { result ≡ bytes_eq text.now word.now }
{
    text == word
}

// The move that an agent, a memory, a start and a length tell.
fn move_of(kind: MoveKind, text: &[u8]) -> Option<CacheMove>
    ensures { result ≡ move_of kind text.now }
{
    let agent = cut_at(text, b' ')?;
    let memory = cut_at(agent.rest, b' ')?;
    let start = cut_at(memory.rest, b' ')?;
    Some(CacheMove {
        kind,
        agent: number_of(agent.front)?,
        range: MemoryRange {
            memory: number_of(memory.front)?,
            start: number_of(start.front)?,
            len: number_of(start.rest)?,
        },
    })
}

fn kind_named(word: &[u8]) -> Option<MoveKind>
    ensures { result ≡ kind_named word.now }
{
    if is_word(word, b"writeback") {
        return Some(MoveKind::WriteBack);
    }
    if is_word(word, b"fill") {
        return Some(MoveKind::Fill);
    }
    if is_word(word, b"drop") {
        return Some(MoveKind::DropLine);
    }
    None
}

// The event of a word and what follows it.
fn event_named(word: &[u8], text: &[u8]) -> Option<Event>
    ensures { result ≡ event_named word.now text.now }
{
    if is_word(word, b"begin") {
        return Some(Event::Begin {
            node: number_of(text)?,
        });
    }
    if is_word(word, b"end") {
        return Some(Event::End {
            node: number_of(text)?,
        });
    }
    if is_word(word, b"sync") {
        return Some(Event::Sync {
            node: number_of(text)?,
        });
    }
    if is_word(word, b"host") {
        return Some(Event::Host {
            node: number_of(text)?,
        });
    }
    let kind = kind_named(word)?;
    Some(Event::Move(move_of(kind, text)?))
}

/// The event that a line tells.
pub(crate) fn event_of(line: &[u8]) -> Option<Event>
    ensures { result ≡ event_of line.now }
{
    match cut_at(line, b' ') {
        Some(cut) => event_named(cut.front, cut.rest),
        None => None,
    }
}

/// The number of events that the first line tells.
pub(crate) fn count_of(line: &[u8]) -> Option<u32>
    ensures { result ≡ count_of line.now }
{
    let cut = cut_at(line, b' ')?;
    if is_word(cut.front, b"events") {
        number_of(cut.rest)
    } else {
        None
    }
}
