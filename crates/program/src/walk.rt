//! The first location where a rule is broken.

ghost use Rattle.std.specs.Prelude.{◌≡◌, not};
ghost use Rattle.std.specs.List.{position};
ghost use Rattle.base.specs.Walks.{first_in};
ghost use Rattle.program.specs.Rules.{piece_obeys, wait_obeys, item_runs, item_obeys, signal_obeys, readback_obeys, signal_place, batch_place, next_place, queue_place, broken_at};
ghost use Rattle.program.specs.Timelines.{value_of};

use crate::barriers::{
    has_stages, item_has_stages, item_on_queue, item_supported, nothing_ignored, on_queue,
};
use crate::location::Location;
use crate::numbers::{has_piece, item_known};
use crate::range::{is_buffer, item_in_range, piece_in_range};
use crate::rule::Rule;
use crate::{Batch, Item, Memory, Piece, Program, Queue, Signal, WaitFor};
use base::{Family, Shape, first_in, op_runs};

fn piece_obeys(rule: Rule, memories: &[Memory], piece: &Piece) -> bool
    ensures { result ≡ piece_obeys rule memories.now piece.now }
{
    match rule {
        Rule::Range => piece_in_range(memories, piece),
        Rule::Known => (piece.memory as usize) < memories.len(),
        _ => true,
    }
}

fn wait_obeys(rule: Rule, count: usize, family: Family, wait: &WaitFor) -> bool
    ensures { result ≡ wait_obeys rule count family wait.now }
{
    match rule {
        Rule::Known => (wait.queue as usize) < count,
        Rule::Stages => has_stages(wait.stages),
        Rule::OnQueue => on_queue(family, wait.stages),
        Rule::Timeline => 1 <= wait.value,
        _ => true,
    }
}

fn item_runs(family: Family, item: &Item) -> bool
    ensures { result ≡ item_runs family item.now }
{
    match item {
        Item::Command(op) => op_runs(op, family),
        _ => true,
    }
}

fn item_obeys(rule: Rule, shapes: &[Shape], family: Family, item: &Item) -> bool
    ensures { result ≡ item_obeys rule shapes.now family item.now }
{
    match rule {
        Rule::Range => item_in_range(shapes, family, item),
        Rule::Known => item_known(shapes, item),
        Rule::Stages => item_has_stages(item),
        Rule::Ignored => nothing_ignored(item),
        Rule::Supported => item_supported(item),
        Rule::OnQueue => item_on_queue(family, item),
        Rule::Runs => item_runs(family, item),
        Rule::Limits | Rule::Timeline => true,
    }
}

// The signals before it reach a value.
fn signal_obeys(rule: Rule, family: Family, reached: u64, signal: &Signal) -> bool
    ensures { result ≡ signal_obeys rule family reached signal.now }
{
    match rule {
        Rule::Stages => has_stages(signal.stages),
        Rule::OnQueue => on_queue(family, signal.stages),
        Rule::Timeline => reached < signal.value,
        _ => true,
    }
}

fn readback_obeys(rule: Rule, shapes: &[Shape], piece: u32) -> bool
    ensures { result ≡ readback_obeys rule shapes.now piece }
{
    match rule {
        Rule::Range => is_buffer(shapes, piece),
        Rule::Known => has_piece(shapes, piece),
        _ => true,
    }
}

fn broken_piece(rule: Rule, memories: &[Memory], pieces: &[Piece]) -> Option<usize>
    ensures { result ≡ position (λ piece. not (piece_obeys rule memories.now piece)) pieces.now }
{
    pieces
        .iter()
        .position(|piece| !piece_obeys(rule, memories, piece))
}

fn broken_wait(rule: Rule, count: usize, family: Family, waits: &[WaitFor]) -> Option<usize>
    ensures { result ≡ position (λ wait. not (wait_obeys rule count family wait)) waits.now }
{
    waits
        .iter()
        .position(|wait| !wait_obeys(rule, count, family, wait))
}

fn broken_item(rule: Rule, shapes: &[Shape], family: Family, items: &[Item]) -> Option<usize>
    ensures { result ≡ position (λ item. not (item_obeys rule shapes.now family item)) items.now }
{
    items
        .iter()
        .position(|item| !item_obeys(rule, shapes, family, item))
}

fn broken_readback(rule: Rule, shapes: &[Shape], readbacks: &[u32]) -> Option<usize>
    ensures { result ≡ position (λ piece. not (readback_obeys rule shapes.now piece)) readbacks.now }
{
    readbacks
        .iter()
        .position(|piece| !readback_obeys(rule, shapes, *piece))
}

fn signal_place(
    rule: Rule,
    family: Family,
    reached: u64,
    q: usize,
    b: usize,
    signal: &Option<Signal>,
) -> Option<Location>
    ensures { result ≡ signal_place rule family reached q b signal.now }
{
    match signal {
        None => None,
        Some(signal) => {
            if signal_obeys(rule, family, reached, signal) {
                None
            } else {
                Some(Location::Signal(q, b))
            }
        }
    }
}

/// A rule on the queues of a program with so many queues and pieces of these shapes.
#[derive(Clone, Copy)]
struct Test<'a> {
    rule: Rule,
    count: usize,
    shapes: &'a [Shape],
}

fn batch_place(
    test: Test,
    family: Family,
    reached: u64,
    q: usize,
    b: usize,
    batch: &Batch,
) -> Option<Location>
    ensures { result ≡ batch_place test.entry.rule test.entry.count test.entry.shapes.now family reached q b batch.now }
{
    if let Some(k) = broken_wait(test.rule, test.count, family, &batch.waits) {
        return Some(Location::Wait(q, b, k));
    }
    if let Some(k) = broken_item(test.rule, test.shapes, family, &batch.items) {
        return Some(Location::Item(q, b, k));
    }
    signal_place(test.rule, family, reached, q, b, &batch.signal)
}

fn value_of(signal: &Option<Signal>) -> u64
    ensures { result ≡ value_of signal.now }
{
    match signal {
        None => 0,
        Some(signal) => signal.value,
    }
}

fn in_batches(test: Test, family: Family, q: usize, batches: &[Batch]) -> Option<Location>
    ensures { result ≡ first_in (next_place test.entry.rule test.entry.count test.entry.shapes.now family q batches.now) 0 batches.now }
{
    let mut reached = 0;
    for (b, batch) in batches.iter().enumerate() {
        if let Some(location) = batch_place(test, family, reached, q, b, batch) {
            return Some(location);
        }
        reached = reached.max(value_of(&batch.signal));
    }
    None
}

fn queue_place(test: Test, q: usize, queue: &Queue) -> Option<Location>
    ensures { result ≡ queue_place test.entry.rule test.entry.count test.entry.shapes.now q queue.now }
{
    in_batches(test, queue.family, q, &queue.batches)
}

fn in_queues(test: Test, queues: &[Queue]) -> Option<Location>
    ensures { result ≡ first_in (queue_place test.entry.rule test.entry.count test.entry.shapes.now) 0 queues.now }
{
    first_in(queues, |q, queue| queue_place(test, q, queue))
}

/// The first location where a program whose pieces have these shapes breaks the rule.
pub(crate) fn broken_at(rule: Rule, program: &Program, shapes: &[Shape]) -> Option<Location>
    ensures { result ≡ broken_at rule program.now shapes.now }
{
    if let Some(i) = broken_piece(rule, &program.memories, &program.pieces) {
        return Some(Location::Piece(i));
    }
    let test = Test {
        rule,
        count: program.queues.len(),
        shapes,
    };
    if let Some(location) = in_queues(test, &program.queues) {
        return Some(location);
    }
    match broken_readback(rule, shapes, &program.readbacks) {
        Some(k) => Some(Location::Readback(k)),
        None => None,
    }
}
