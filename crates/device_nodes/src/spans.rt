//! Between which numbers queues have nodes that are not done.

ghost use Rattle.std.specs.Prelude.{◌≡◌, ◌<◌, ◌≤◌, ◌+◌, ℕ, length, get_or, slice_set, true, IfOk};
ghost use Rattle.base.specs.Maxima.{max_nodes};
ghost use Rattle.device_nodes.specs.Internal.Spans.{from_of, to_of, Spanned, Ends};
ghost use Rattle.device_model.specs.States.{is_done};
ghost use Rattle.device_model.specs.declared.phase.Phase.TheVariants.{Idle, Done};
ghost use Rattle.check_access.specs.Views.{queue_at};

use base::{List, NoMemory};
use check_access::View;
use device_model::Phase;
use std::alloc::Global;

/// Of each queue, host reads being one more, the numbers between which it has nodes that are not done. With it a search for the
/// next node of a queue passes over done ones and other queues.
#[derive(Debug, Drop)]
pub(crate) struct Spans {
    pub(crate) from: List<u32>,
    pub(crate) to: List<u32>,
}

// The first number from `from` on of a node of the queue that is not done, or `to`.
fn first_open(view: &View, phases: &[Phase], queue: usize, from: u32, to: u32) -> u32
    requires few { to ≤ length view.now.nodes }
    requires size { length phases.now ≡ length view.now.nodes }
    ensures { (n : ℕ) → from ≤ n → n < result → queue_at view.now n ≡ queue → is_done (get_or phases.now n Idle) ≡ true }
{
    for n in from..to {
        if view.node(n).queue as usize == queue && !phases[n as usize].is_done() {
            return n;
        }
    }
    to
}

// Goes past node n.
fn put_end(ends: &mut List<u32>, view: &View, n: u32)
    requires n { n < length view.now.nodes }
    requires few { length view.now.nodes ≤ max_nodes }
    ensures { Ends view.now n ends.old → Ends view.now (n + 1) ends.new }
{
    let queue = view.node(n).queue as usize;
    if queue >= ends.len() {
        return;
    }
    ends.set(queue, n + 1);
}

// The number past the last node of each queue.
fn ends_of(alloc: Global, view: &View, queues: usize) -> Result<List<u32>, NoMemory>
    ensures { IfOk result (λ ends. Ends view.now (length view.now.nodes) ends) }
{
    let mut ends = List::from_vec(vec![in alloc; 0; queues]?);
    for n in 0..view.count() as u32 {
        put_end(&mut ends, view, n);
    }
    Ok(ends)
}

impl Spans {
    /// Of so many queues.
    pub(crate) fn new(
        alloc: Global,
        view: &View,
        phases: &[Phase],
        queues: usize,
    ) -> Result<Self, NoMemory>
        requires { length phases.now ≡ length view.now.nodes }
        ensures { IfOk result (λ spans. Spanned view.now (λ n. get_or phases.now n Idle) spans) }
    {
        let mut spans = Spans {
            from: List::from_vec(vec![in alloc; 0; queues]?),
            to: ends_of(alloc, view, queues)?,
        };
        for queue in 0..queues {
            spans.advance(view, phases, queue);
        }
        Ok(spans)
    }

    /// Where the queue begins to have nodes that are not done.
    pub(crate) fn from(&self, queue: usize) -> u32
        ensures { result ≡ from_of self.now queue }
    {
        self.from.get(queue).copied().unwrap_or(0)
    }

    /// Past the queue's last node.
    pub(crate) fn to(&self, view: &View, queue: usize) -> u32
        ensures { result ≡ to_of view.now self.now queue }
    {
        self.to.get(queue).copied().unwrap_or(view.count() as u32)
    }

    /// Passes over done nodes of the queue.
    pub(crate) fn advance(&mut self, view: &View, phases: &[Phase], queue: usize)
        requires old { Spanned view.now (λ n. get_or phases.now n Idle) self.old }
        requires size { length phases.now ≡ length view.now.nodes }
        ensures { Spanned view.now (λ n. get_or phases.now n Idle) self.new }
    {
        if queue >= self.from.len() {
            return;
        }
        let first = first_open(view, phases, queue, self.from(queue), self.to(view, queue));
        self.from.set(queue, first);
    }
}

/// The node is done.
pub(crate) fn finish(phases: &mut List<Phase>, spans: &mut Spans, view: &View, node: u32)
    requires size { length phases.old ≡ length view.now.nodes }
    requires node { node < length view.now.nodes }
    requires spanned { Spanned view.now (λ n. get_or phases.old n Idle) spans.old }
    ensures phases { phases.new ≡ slice_set phases.old node Done }
    ensures spanned { Spanned view.now (λ n. get_or phases.new n Idle) spans.new }
{
    phases.set(node as usize, Phase::Done);
    spans.advance(view, phases, view.node(node).queue as usize);
}
