//! What a device did.

ghost use Rattle.std.specs.Prelude.{◌≡◌, ◌++◌, OnOk, IfOk};
ghost use Rattle.report.specs.Traces.{event_line, move_line, move_word, node_line, trace_text};

use crate::hazard::{add_number, add_numbers};
use base::{CacheMove, Event, List, MoveKind, NoMemory, Text};
use base_text::Lines;
use std::alloc::Global;

fn add_node(text: &mut Text, word: &[u8], node: u32) -> Result<(), NoMemory>
    ensures { OnOk result (text.new ≡ text.old ++ node_line word.now node) }
{
    text.word(word)?;
    add_number(text, node)?;
    text.end_line()
}

fn move_word(kind: MoveKind) -> &'static [u8]
    ensures { result.now ≡ move_word kind }
{
    match kind {
        MoveKind::WriteBack => b"writeback",
        MoveKind::Fill => b"fill",
        MoveKind::DropLine => b"drop",
    }
}

fn add_move(text: &mut Text, cache_move: CacheMove) -> Result<(), NoMemory>
    ensures { OnOk result (text.new ≡ text.old ++ move_line cache_move) }
{
    let range = cache_move.range;
    text.word(move_word(cache_move.kind))?;
    add_numbers(text, cache_move.agent, range.memory)?;
    add_numbers(text, range.start, range.len)?;
    text.end_line()
}

fn add_event(text: &mut Text, event: &Event) -> Result<(), NoMemory>
    ensures { OnOk result (text.new ≡ text.old ++ event_line event.now) }
{
    match *event {
        Event::Begin { node } => add_node(text, b"begin", node),
        Event::End { node } => add_node(text, b"end", node),
        Event::Sync { node } => add_node(text, b"sync", node),
        Event::Host { node } => add_node(text, b"host", node),
        Event::Move(cache_move) => add_move(text, cache_move),
    }
}

/// The lines of a history: how many events it has, and each event, as `begin 0` or `writeback 6 0 0 4`.
pub fn trace_text(alloc: Global, history: &[Event]) -> Result<Text, NoMemory>
    ensures { IfOk result (λ text. text ≡ trace_text history.now) }
{
    let mut text = List::new(alloc);
    text.word(b"events ")?;
    text.number(history.len() as u64)?;
    text.end_line()?;
    for event in history {
        add_event(&mut text, event)?;
    }
    Ok(text)
}
