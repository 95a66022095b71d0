//! What is known before anything has run.

ghost use Rattle.std.specs.Prelude.{◌≡◌, length, replicate, false, IfOk};
ghost use Rattle.vk.specs.declared.layout.Layout.TheVariants.{Undefined};
ghost use Rattle.device_nodes.specs.Internal.Fresh.{IsFresh};
ghost use Rattle.device_model.specs.declared.owner.Owner.TheVariants.{Unused};
ghost use Rattle.device_model.specs.declared.phase.Phase.TheVariants.{Idle};

use base::{List, NoMemory};
use check_access::View;
use device_model::{Owner, Phase};
use std::alloc::Global;
use vk::Layout;

/// Nodes, pieces and timelines before anything has run.
#[derive(Drop)]
pub(crate) struct Fresh {
    pub(crate) phases: List<Phase>,
    pub(crate) marked: List<bool>,
    pub(crate) layouts: List<Layout>,
    pub(crate) owners: List<Owner>,
    pub(crate) counters: List<u64>,
}

// So many nodes: how far each is, and whether it is marked.
fn nodes_of(alloc: Global, count: usize) -> Result<(List<Phase>, List<bool>), NoMemory>
    ensures phases { IfOk result (λ nodes. nodes.0 ≡ replicate count Idle) }
    ensures marked { IfOk result (λ nodes. nodes.1 ≡ replicate count false) }
{
    let phases = List::from_vec(vec![in alloc; Phase::Idle; count]?);
    let marked = List::from_vec(vec![in alloc; false; count]?);
    Ok((phases, marked))
}

// So many pieces: the layout and the owner of each.
fn pieces_of(alloc: Global, count: usize) -> Result<(List<Layout>, List<Owner>), NoMemory>
    ensures layouts { IfOk result (λ pieces. pieces.0 ≡ replicate count Undefined) }
    ensures owners { IfOk result (λ pieces. pieces.1 ≡ replicate count Unused) }
{
    let layouts = List::from_vec(vec![in alloc; Layout::Undefined; count]?);
    let owners = List::from_vec(vec![in alloc; Owner::Unused; count]?);
    Ok((layouts, owners))
}

impl Fresh {
    /// Of a program with so many queues.
    pub(crate) fn of(alloc: Global, view: &View, queues: usize) -> Result<Self, NoMemory>
        requires { queues ≡ length view.now.families }
        ensures { IfOk result (IsFresh view.now) }
    {
        let (phases, marked) = nodes_of(alloc, view.count())?;
        let (layouts, owners) = pieces_of(alloc, view.piece_count())?;
        let counters = List::from_vec(vec![in alloc; 0; queues]?);
        Ok(Fresh {
            phases,
            marked,
            layouts,
            owners,
            counters,
        })
    }
}
