//! The numbering of nodes.

ghost use Rattle.std.specs.Prelude.{◌≡◌, ◌++◌, map, IfOk, OnOk};
ghost use Rattle.std.specs.List.{range_with_len};
ghost use Rattle.program.specs.Internal.Nodes.{signal_nodes, batch_nodes, queue_nodes, nodes_of};
ghost use Rattle.program.specs.Places.{all_in};
ghost use Rattle.program.specs.declared.nodes.NodeAt.TheVariants as node;

use crate::{Batch, Program, Queue, Signal};
use base::{List, NoMemory};
use std::alloc::Global;

/// A node by where it stands in the program.
#[derive(Clone, Copy, Debug)]
pub(crate) enum NodeAt {
    Wait { queue: u32, batch: u32, at: u32 },
    Item { queue: u32, batch: u32, at: u32 },
    Signal { queue: u32, batch: u32 },
    Host { readback: u32 },
}

// A list of 2^32 entries or more cannot be held beside its program.
fn short(at: usize) -> Result<u32, NoMemory>
    ensures { IfOk result (λ short. short ≡ at) }
{
    match u32::try_from(at) {
        Ok(short) => Ok(short),
        Err(_) => Err(NoMemory),
    }
}

#[tactic(auto, using(crate::proofs::Growing::one_more))]
fn push_waits(
    nodes: &mut List<NodeAt>,
    queue: u32,
    batch: u32,
    count: usize,
) -> Result<(), NoMemory>
    ensures { OnOk result (nodes.new ≡ nodes.old ++ map (λ k. node.Wait queue batch k) (range_with_len 0 count)) }
{
    for k in 0..count {
        let at = short(k)?;
        nodes.push(NodeAt::Wait { queue, batch, at })?;
    }
    Ok(())
}

#[tactic(auto, using(crate::proofs::Growing::one_more))]
fn push_items(
    nodes: &mut List<NodeAt>,
    queue: u32,
    batch: u32,
    count: usize,
) -> Result<(), NoMemory>
    ensures { OnOk result (nodes.new ≡ nodes.old ++ map (λ k. node.Item queue batch k) (range_with_len 0 count)) }
{
    for k in 0..count {
        let at = short(k)?;
        nodes.push(NodeAt::Item { queue, batch, at })?;
    }
    Ok(())
}

#[tactic(auto, using(crate::proofs::Growing::one_more))]
fn push_hosts(nodes: &mut List<NodeAt>, count: usize) -> Result<(), NoMemory>
    ensures { OnOk result (nodes.new ≡ nodes.old ++ map (λ k. node.Host k) (range_with_len 0 count)) }
{
    for k in 0..count {
        let readback = short(k)?;
        nodes.push(NodeAt::Host { readback })?;
    }
    Ok(())
}

fn push_signal(
    nodes: &mut List<NodeAt>,
    queue: u32,
    batch: u32,
    signal: &Option<Signal>,
) -> Result<(), NoMemory>
    ensures { OnOk result (nodes.new ≡ nodes.old ++ signal_nodes queue batch signal.now) }
{
    match signal {
        None => Ok(()),
        Some(_) => nodes.push(NodeAt::Signal { queue, batch }),
    }
}

fn push_batch(
    nodes: &mut List<NodeAt>,
    queue: u32,
    at: usize,
    batch: &Batch,
) -> Result<(), NoMemory>
    ensures { OnOk result (nodes.new ≡ nodes.old ++ batch_nodes queue at batch.now) }
{
    let number = short(at)?;
    push_waits(nodes, queue, number, batch.waits.len())?;
    push_items(nodes, queue, number, batch.items.len())?;
    push_signal(nodes, queue, number, &batch.signal)
}

#[tactic(auto, using(crate::proofs::Growing::all_on))]
fn push_batches(nodes: &mut List<NodeAt>, queue: u32, batches: &[Batch]) -> Result<(), NoMemory>
    ensures { OnOk result (nodes.new ≡ nodes.old ++ all_in (batch_nodes queue) 0 batches.now) }
{
    for (b, batch) in batches.iter().enumerate() {
        push_batch(nodes, queue, b, batch)?;
    }
    Ok(())
}

fn push_queue(nodes: &mut List<NodeAt>, at: usize, queue: &Queue) -> Result<(), NoMemory>
    ensures { OnOk result (nodes.new ≡ nodes.old ++ queue_nodes at queue.now) }
{
    let number = short(at)?;
    push_batches(nodes, number, &queue.batches)
}

#[tactic(auto, using(crate::proofs::Growing::all_on))]
fn push_queues(nodes: &mut List<NodeAt>, queues: &[Queue]) -> Result<(), NoMemory>
    ensures { OnOk result (nodes.new ≡ nodes.old ++ all_in queue_nodes 0 queues.now) }
{
    for (q, queue) in queues.iter().enumerate() {
        push_queue(nodes, q, queue)?;
    }
    Ok(())
}

/// All nodes in the order of their numbers.
pub(crate) fn nodes_of(alloc: Global, program: &Program) -> Result<List<NodeAt>, NoMemory>
    ensures { IfOk result (λ nodes. nodes ≡ nodes_of program.now) }
{
    let mut nodes = List::new(alloc);
    push_queues(&mut nodes, &program.queues)?;
    push_hosts(&mut nodes, program.readbacks.len())?;
    Ok(nodes)
}
