//! The order in which nodes are taken.

ghost use Rattle.std.specs.Prelude.{◌≡◌, ◌<◌, ◌≤◌, ◌+◌, ◌-◌, ◌++◌, ℕ, length, true, false, get_or, Some, IfOk, MatchOption, IfSome};
ghost use Rattle.std.specs.List.{range_with_len};
ghost use Rattle.base.specs.Maxima.{max_nodes, max_queues};
ghost use Rattle.check_order.specs.Answers.{Answers};
ghost use Rattle.check_order.specs.Nodes.{program_nodes};
ghost use Rattle.check_order.specs.Internal.Queues.{Ready, queues_of, node_open, goes_on};
ghost use Rattle.check_order.specs.Edges.{node_at, meeting};
ghost use Rattle.program.specs.Entries.{first_node};

use crate::Edges;
use base::{List, NoMemory};
use program::ValidProgram;
use std::alloc::Global;

/// The order in which nodes are taken: again and again the next node of the lowest queue whose next node is no wait for a
/// signal that is not taken, and at last the host reads.
#[derive(Debug, Drop)]
pub enum Drain {
    /// The least order of all nodes, compared place by place.
    Whole(List<u32>),
    /// No order exists: each queue that has a node left stands before a wait. The lowest such queue and its next node,
    /// the least one that nothing reaches.
    Stuck { queue: u32, node: u32 },
}

// Whether the node waits for nothing, or for a signal that is taken.
fn is_open(edges: &Edges, next: &[usize], n: usize) -> bool
    requires n { n < length edges.now }
    requires met { (m x : ℕ) → meeting edges.now (node_at edges.now m).kind ≡ Some x → (x < length edges.now) × ((node_at edges.now x).queue < length next.now) }
    ensures { result ≡ node_open edges.now next.now n }
{
    if !edges.node(n).kind.is_wait() {
        return true;
    }
    match edges.met(n) {
        Some(signal) => signal < next[edges.node(signal).queue as usize],
        None => false,
    }
}

// Whether the queue has a node left that may come next.
fn goes_on(edges: &Edges, starts: &[usize], queues: usize, next: &[usize], q: usize) -> bool
    requires ready { Ready edges.now starts.now queues }
    requires next { length next.now ≡ queues }
    requires q { q < queues }
    ensures { result ≡ goes_on (queues_of edges.now starts.now) next.now q }
{
    let n = next[q];
    n < starts[q + 1] && is_open(edges, next, n)
}

// The lowest queue that can go on.
fn pick(edges: &Edges, starts: &[usize], queues: usize, next: &[usize]) -> Option<usize>
    requires ready { Ready edges.now starts.now queues }
    requires next { length next.now ≡ queues }
    ensures first { MatchOption result ((q : ℕ) → q < queues → goes_on (queues_of edges.now starts.now) next.now q ≡ false) (λ q. (r : ℕ) → r < q → goes_on (queues_of edges.now starts.now) next.now r ≡ false) }
    ensures some { IfSome result (λ q. (q < queues) × (goes_on (queues_of edges.now starts.now) next.now q ≡ true)) }
{
    for q in 0..queues {
        if goes_on(edges, starts, queues, next, q) {
            return Some(q);
        }
    }
    None
}

// The lowest queue that has a node left.
fn unfinished(starts: &[usize], queues: usize, next: &[usize]) -> Option<usize>
    requires starts { length starts.now ≡ queues + 1 }
    requires next { length next.now ≡ queues }
    ensures first { MatchOption result ((q : ℕ) → q < queues → get_or starts.now (q + 1) 0 ≤ get_or next.now q 0) (λ q. (r : ℕ) → r < q → get_or starts.now (r + 1) 0 ≤ get_or next.now r 0) }
    ensures some { IfSome result (λ q. (q < queues) × (get_or next.now q 0 < get_or starts.now (q + 1) 0)) }
{
    for q in 0..queues {
        if next[q] < starts[q + 1] {
            return Some(q);
        }
    }
    None
}

fn first_nodes(alloc: Global, starts: &[usize], queues: usize) -> Result<Vec<usize>, NoMemory>
    requires starts { queues < length starts.now }
    ensures length { IfOk result (λ next. length next.items ≡ queues) }
    ensures starts { IfOk result (λ next. (q : ℕ) → q < queues → get_or next.items q 0 ≡ get_or starts.now q 0) }
{
    let mut next = Vec::new(alloc);
    for q in 0..queues {
        next.push(starts[q])?;
    }
    Ok(next)
}

// The host reads, which are the numbers from `from` on, below `count`.
fn push_hosts(mut order: List<u32>, from: usize, count: usize) -> Result<List<u32>, NoMemory>
    requires from { from ≤ count }
    requires few { count ≤ max_nodes }
    ensures { IfOk result (λ all. all ≡ order ++ range_with_len from (count - from)) }
{
    for n in from..count {
        order.push(n as u32)?;
    }
    Ok(order)
}

fn drained(alloc: Global, edges: &Edges, starts: &[usize], queues: usize) -> Result<Drain, NoMemory>
    requires ready { Ready edges.now starts.now queues }
    requires few { queues ≤ max_queues }
    ensures { IfOk result (λ drain. Answers edges.now drain) }
{
    let mut next = first_nodes(alloc, starts, queues)?;
    let mut order = List::new(alloc);
    'nodes: while let Some(q) = pick(edges, starts, queues, &next) {
        order.push(next[q] as u32)?;
        next[q] += 1;
    }
    match unfinished(starts, queues, &next) {
        None => Ok(Drain::Whole(push_hosts(order, starts[queues], edges.count())?)),
        Some(q) => Ok(Drain::Stuck {
            queue: q as u32,
            node: next[q] as u32,
        }),
    }
}

// The number at which each queue begins, and that of the first host read.
fn starts_of(alloc: Global, program: &ValidProgram, queues: usize) -> Result<Vec<usize>, NoMemory>
    requires few { queues ≤ max_queues }
    requires queues { queues ≡ length program.now.queues }
    ensures length { IfOk result (λ starts. length starts.items ≡ queues + 1) }
    ensures begins { IfOk result (λ starts. (q : ℕ) → q ≤ queues → get_or starts.items q 0 ≡ first_node program.now q) }
{
    let mut starts = Vec::new(alloc);
    for q in 0..queues + 1 {
        starts.push(program.first_node(q as u32) as usize)?;
    }
    Ok(starts)
}

/// The least order of a program's nodes, or where it is stuck. The edges are those of the program.
pub fn drain_of(alloc: Global, program: &ValidProgram, edges: &Edges) -> Result<Drain, NoMemory>
    requires edges { edges.now ≡ program_nodes program.now }
    ensures { IfOk result (λ drain. Answers (program_nodes program.now) drain) }
{
    let queues = program.program().queues.len();
    let starts = starts_of(alloc, program, queues)?;
    drained(alloc, edges, &starts, queues)
}
