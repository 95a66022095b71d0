//! What the nodes of queues wait for, known beforehand.

ghost use Rattle.std.specs.Prelude.{◌≡◌, ◌<◌, ◌+◌, ℕ, length, IfOk, IsTrue};
ghost use Rattle.device_nodes.specs.Internal.Needs.{AreNodes, BlockAll, IsListed, LooseBelow, Needed, NeedsBelow};

use base::{List, NoMemory};
use bitflags::Flags;
use check_access::View;
use std::alloc::Global;
use vk::Stages;

/// Stages at which some node of a queue waits for earlier ones.
#[derive(Clone, Copy, Debug)]
pub(crate) struct Need {
    pub(crate) queue: u32,
    pub(crate) stages: Stages,
}

/// The stages at which nodes wait, and the nodes that wait at none. What blocks one stage of each need of a queue blocks
/// every node of it that waits at some stage, so a search for the next node has to look no further but at those that wait at none.
#[derive(Debug, Drop)]
pub(crate) struct Needs {
    // Each once.
    pub(crate) list: List<Need>,
    // Of all queues.
    pub(crate) loose: List<u32>,
}

// Whether a queue's need of these stages is listed.
fn is_listed(list: &[Need], queue: u32, stages: Stages) -> bool
    ensures { IsTrue result → IsListed list.now queue stages.0 }
{
    for i in 0..list.len() {
        if list[i].queue == queue && list[i].stages.0 == stages.0 {
            return true;
        }
    }
    false
}

// Goes past node n.
fn put_need(list: &mut List<Need>, view: &View, n: u32) -> Result<(), NoMemory>
    requires n { n < length view.now.nodes }
    ensures { IfOk result (λ u. NeedsBelow view.now n list.old → NeedsBelow view.now (n + 1) list.new) }
{
    let node = view.node(n);
    let (queue, stages) = (node.queue, node.src_stages);
    if !is_listed(list, queue, stages) {
        list.push(Need { queue, stages })?;
    }
    Ok(())
}

// The needs of all nodes.
fn needs_of(alloc: Global, view: &View) -> Result<List<Need>, NoMemory>
    ensures { IfOk result (λ list. NeedsBelow view.now (length view.now.nodes) list) }
{
    let mut list = List::new(alloc);
    for n in 0..view.count() as u32 {
        put_need(&mut list, view, n)?;
    }
    Ok(list)
}

// Goes past node n.
fn put_loose(loose: &mut List<u32>, view: &View, n: u32) -> Result<(), NoMemory>
    requires n { n < length view.now.nodes }
    ensures listed { IfOk result (λ u. LooseBelow view.now n loose.old → LooseBelow view.now (n + 1) loose.new) }
    ensures nodes { IfOk result (λ u. AreNodes view.now loose.old → AreNodes view.now loose.new) }
{
    if view.node(n).src_stages.is_empty() {
        loose.push(n)?;
    }
    Ok(())
}

// The nodes that wait at no stage.
fn loose_of(alloc: Global, view: &View) -> Result<List<u32>, NoMemory>
    ensures listed { IfOk result (λ loose. LooseBelow view.now (length view.now.nodes) loose) }
    ensures nodes { IfOk result (λ loose. AreNodes view.now loose) }
{
    let mut loose = List::new(alloc);
    for n in 0..view.count() as u32 {
        put_loose(&mut loose, view, n)?;
    }
    Ok(loose)
}

impl Needs {
    pub(crate) fn new(alloc: Global, view: &View) -> Result<Self, NoMemory>
        ensures { IfOk result (λ needs. Needed view.now needs) }
    {
        Ok(Needs {
            list: needs_of(alloc, view)?,
            loose: loose_of(alloc, view)?,
        })
    }

    /// Whether these stages block each node of the queue that waits at some stage.
    pub(crate) fn block_all(&self, blocked: Stages, queue: u32) -> bool
        ensures { IsTrue result → (V : _) (n : ℕ) → NeedsBelow V n self.now.list → BlockAll V queue n blocked.0 }
    {
        for i in 0..self.list.len() {
            let need = self.list[i];
            if need.queue == queue && !need.stages.is_empty() && !blocked.intersects(need.stages) {
                return false;
            }
        }
        true
    }
}
