//! Which steps a signal follows.

ghost use Rattle.std.specs.Prelude.{◌≡◌, ℕ, ◌+◌, ◌<◌, ◌||◌, false, length, get_or, IfOk, OnOk};
ghost use Rattle.compile_timeline.specs.Internal.Counts.{signals_of, HasLasts, HasCounts};
ghost use Rattle.compile_timeline.specs.Signals.{awaited_by, is_awaited, has_signal, value_at};
ghost use Rattle.compile_timeline.specs.Steps.{IsScript, queue_at};

use crate::Step;
use crate::needs::{Needs, zeros};
use base::{List, NoMemory};
use std::alloc::Global;

/// Of each step whether a signal follows it, and how many signals its queue has up to there: the value of that signal.
#[derive(Debug, Drop)]
pub(crate) struct Signals {
    pub(crate) signalled: List<bool>,
    pub(crate) values: List<u64>,
}

// Marks the steps that a queue waits for.
fn mark_queue(
    alloc: Global,
    awaited: &mut List<bool>,
    script: &[Step],
    queue: u32,
    count: u32,
) -> Result<(), NoMemory>
    requires script { IsScript script.now count }
    requires size { length awaited.old ≡ length script.now }
    ensures size { OnOk result (length awaited.new ≡ length script.now) }
    ensures marked { OnOk result ((j : ℕ) → get_or awaited.new j false ≡ (awaited_by script.now count j queue (length script.now) || get_or awaited.old j false)) }
{
    let mut needs = Needs::new(alloc, script, queue, count)?;
    for at in 0..script.len() {
        if script[at].is_item(queue) {
            needs.mark(awaited, count);
        }
        needs.pass(script, queue, at);
    }
    Ok(())
}

// For each step whether a wait is for it.
fn awaited(alloc: Global, script: &[Step], count: u32) -> Result<List<bool>, NoMemory>
    requires { IsScript script.now count }
    ensures size { IfOk result (λ awaited. length awaited ≡ length script.now) }
    ensures awaited { IfOk result (λ awaited. (j : ℕ) → get_or awaited j false ≡ is_awaited script.now count j) }
{
    let mut awaited = List::from_vec(vec![in alloc; false; script.len()]?);
    for queue in 0..count {
        mark_queue(alloc, &mut awaited, script, queue, count)?;
    }
    Ok(awaited)
}

// The last item of each queue, counted from 1.
fn last_items(alloc: Global, script: &[Step], count: u32) -> Result<List<usize>, NoMemory>
    requires { IsScript script.now count }
    ensures { IfOk result (λ lasts. HasLasts script.now count (length script.now) lasts) }
{
    let mut lasts = zeros(alloc, count)?;
    for at in 0..script.len() {
        match &script[at] {
            Step::Item { queue, .. } => lasts.set(*queue as usize, at + 1),
            Step::Need { .. } => {}
        }
    }
    Ok(lasts)
}

fn is_signalled(script: &[Step], awaited: &[bool], lasts: &[usize], at: usize, count: u32) -> bool
    requires script { IsScript script.now count }
    requires at { at < length script.now }
    requires size { length awaited.now ≡ length script.now }
    requires awaited { (j : ℕ) → get_or awaited.now j false ≡ is_awaited script.now count j }
    requires lasts { HasLasts script.now count (length script.now) lasts.now }
    ensures { result ≡ has_signal script.now count (queue_at script.now at) at }
{
    match &script[at] {
        Step::Item { queue, .. } => {
            let is_last = lasts[*queue as usize] == at + 1;
            awaited[at] || is_last
        }
        Step::Need { .. } => false,
    }
}

// The value after a step, which is counted if a signal follows it.
fn counted(
    counts: &mut List<usize>,
    script: &[Step],
    at: usize,
    is_signalled: bool,
    count: u32,
) -> u64
    requires script { IsScript script.now count }
    requires at { at < length script.now }
    requires counts { HasCounts script.now count at counts.old }
    requires signalled { is_signalled ≡ has_signal script.now count (queue_at script.now at) at }
    ensures counts { HasCounts script.now count (at + 1) counts.new }
    ensures value { result ≡ value_at script.now count at }
{
    let queue = script[at].queue() as usize;
    if is_signalled {
        let more = counts[queue] + 1;
        counts.set(queue, more);
    }
    counts[queue] as u64
}

/// The signals that the steps of so many queues need.
#[tactic(auto, using(base::proofs::Lists::one_more))]
pub(crate) fn signals_of(alloc: Global, script: &[Step], count: u32) -> Result<Signals, NoMemory>
    requires { IsScript script.now count }
    ensures { IfOk result (λ signals. signals ≡ signals_of script.now count) }
{
    let awaited = awaited(alloc, script, count)?;
    let lasts = last_items(alloc, script, count)?;
    let mut counts = zeros(alloc, count)?;
    let mut signalled = List::new(alloc);
    let mut values = List::new(alloc);
    for at in 0..script.len() {
        let is_signalled = is_signalled(script, &awaited, &lasts, at, count);
        values.push(counted(&mut counts, script, at, is_signalled, count))?;
        signalled.push(is_signalled)?;
    }
    Ok(Signals { signalled, values })
}
