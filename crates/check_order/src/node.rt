//! A node as edges see it.

ghost use Rattle.std.specs.Prelude.{◌≡◌, ◌≤◌, IfOk, length};
ghost use Rattle.base.specs.Maxima.{max_nodes};
ghost use Rattle.check_order.specs.Edges.{reaches};
ghost use Rattle.vk.specs.Roles.{op_stage};
ghost use Rattle.check_order.specs.Nodes.{node, wait_node, barrier_node, item_node, signal_node, host_node, entry_node, program_nodes};
ghost use Rattle.program.specs.Entries.{seen};
ghost use Rattle.check_order.specs.declared.kind.Kind.TheVariants as kinds;

use crate::Kind;
use base::{List, NoMemory, Op};
use bitflags::Flags;
use program::{Entry, Item, Signal, ValidProgram, WaitFor};
use std::alloc::Global;
use vk::{Masks, Stages, op_stage};

/// A node as edges see it. Its stages are expanded.
#[derive(Clone, Copy, Debug, PartialEq, Eq)]
pub struct Node {
    pub kind: Kind,
    /// The number of its queue; of a host read the number of queues.
    pub queue: u32,
    /// The stages of earlier nodes of its queue that it waits for.
    pub src_stages: Stages,
    /// The stages of later nodes of its queue that wait for it.
    pub dst_stages: Stages,
}

impl Node {
    /// Whether it is a signal of the queue with at least that value.
    pub(crate) fn reaches(&self, queue: u32, value: u64) -> bool
        ensures { result ≡ reaches queue value self.now }
    {
        self.queue == queue && self.kind.has_value(value)
    }
}

fn wait_node(queue: u32, wait: &WaitFor) -> Node
    ensures { result ≡ wait_node queue wait.now }
{
    Node {
        kind: Kind::Wait {
            queue: wait.queue,
            value: wait.value,
        },
        queue,
        src_stages: Stages::empty(),
        dst_stages: wait.stages.expand(),
    }
}

fn barrier_node(queue: u32, masks: Masks) -> Node
    ensures { result ≡ barrier_node queue masks }
{
    Node {
        kind: Kind::Barrier,
        queue,
        src_stages: masks.src_stages.expand(),
        dst_stages: masks.dst_stages.expand(),
    }
}

fn command_node(queue: u32, op: &Op<u32>) -> Node
    ensures { result ≡ node kinds.Command queue (op_stage op.now) (op_stage op.now) }
{
    let stage = op_stage(op);
    Node {
        kind: Kind::Command,
        queue,
        src_stages: stage,
        dst_stages: stage,
    }
}

fn item_node(queue: u32, item: &Item) -> Node
    ensures { result ≡ item_node queue item.now }
{
    match item {
        Item::Command(op) => command_node(queue, op),
        Item::Global(masks) | Item::BufferBarrier(_, masks) => barrier_node(queue, *masks),
        Item::ImageBarrier(_, _, masks) => barrier_node(queue, *masks),
        Item::Release(transfer) | Item::Acquire(transfer) => barrier_node(queue, transfer.masks),
    }
}

fn signal_node(queue: u32, signal: &Signal) -> Node
    ensures { result ≡ signal_node queue signal.now }
{
    Node {
        kind: Kind::Signal {
            value: signal.value,
        },
        queue,
        src_stages: signal.stages.expand().union(Stages::HOST),
        dst_stages: Stages::empty(),
    }
}

fn host_node(queues: u32) -> Node
    ensures { result ≡ host_node queues }
{
    Node {
        kind: Kind::Host,
        queue: queues,
        src_stages: Stages::empty(),
        dst_stages: Stages::empty(),
    }
}

fn entry_node(queues: u32, entry: Entry) -> Node
    ensures { result ≡ entry_node queues (seen entry.entry) }
{
    match entry {
        Entry::Wait { queue, wait } => wait_node(queue, wait),
        Entry::Item { queue, item } => item_node(queue, item),
        Entry::Signal { queue, signal } => signal_node(queue, signal),
        Entry::Host { .. } => host_node(queues),
    }
}

/// All nodes, in the order of their numbers.
#[tactic(auto, using(base::proofs::Lists::one_image, crate::proofs::Tables::as_many))]
pub(crate) fn program_nodes(alloc: Global, shaped: &ValidProgram) -> Result<List<Node>, NoMemory>
    ensures nodes { IfOk result (λ nodes. nodes ≡ program_nodes shaped.now) }
    ensures few { IfOk result (λ nodes. length nodes ≤ max_nodes) }
{
    let queues = shaped.program().queues.len() as u32;
    let mut nodes = List::new(alloc);
    for n in 0..shaped.node_count() {
        nodes.push(entry_node(queues, shaped.entry(n)))?;
    }
    Ok(nodes)
}
