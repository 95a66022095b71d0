//! What each node of a program does to memory.

ghost use Rattle.std.specs.Prelude.{◌≡◌, map, true, option_to_list, IfOk};
ghost use Rattle.program.specs.Entries.{entries_of, seen};
ghost use Rattle.program.specs.Numbers.{item_known};
ghost use Rattle.program.specs.Rules.{shapes_of};
ghost use Rattle.check_access.specs.Internal.KnownEntries.{IsKnown};
ghost use Rattle.check_access.specs.Effects.{plain_effect, barrier_effect, item_effect, all_agents, wait_effect, signal_effect, host_effect, entry_effect};

use crate::barrier::{acquire_accesses, layout_change, released};
use crate::command::{command_accesses, push_some};
use crate::{Access, AccessKind, Agent, Effect, Scope};
use base::{List, NoMemory, Shape};
use bitflags::Flags;
use program::{Entry, Item, Signal, ValidProgram, WaitFor};
use std::alloc::Global;
use vk::{Accesses, Masks, Stages, agents};

fn plain_effect(accesses: List<Access>) -> Effect
    ensures { result ≡ plain_effect accesses }
{
    Effect {
        accesses,
        available: 0,
        visible: 0,
        scope: Scope::Everywhere,
    }
}

// At most one access.
fn list_of(alloc: Global, access: Option<Access>) -> Result<List<Access>, NoMemory>
    ensures { IfOk result (λ accesses. accesses ≡ option_to_list access) }
{
    let mut accesses = List::new(alloc);
    push_some(&mut accesses, access)?;
    Ok(accesses)
}

fn barrier_effect(accesses: List<Access>, masks: Masks, scope: Scope) -> Effect
    ensures { result ≡ barrier_effect accesses masks scope }
{
    Effect {
        accesses,
        available: agents(masks.src_stages, masks.src_accesses),
        visible: agents(masks.dst_stages, masks.dst_accesses),
        scope,
    }
}

fn item_effect(alloc: Global, shapes: &[Shape], queue: u32, item: &Item) -> Result<Effect, NoMemory>
    requires { item_known shapes.now item.now ≡ true }
    ensures { IfOk result (λ effect. effect ≡ item_effect shapes.now queue item.now) }
{
    match item {
        Item::Command(op) => Ok(plain_effect(command_accesses(alloc, shapes, queue, op)?)),
        Item::Global(masks) => Ok(barrier_effect(List::new(alloc), *masks, Scope::Everywhere)),
        Item::BufferBarrier(piece, masks) => Ok(barrier_effect(
            List::new(alloc),
            *masks,
            Scope::Piece(*piece),
        )),
        Item::ImageBarrier(piece, layouts, masks) => Ok(barrier_effect(
            list_of(alloc, layout_change(*piece, *layouts))?,
            *masks,
            Scope::Piece(*piece),
        )),
        Item::Release(transfer) => Ok(barrier_effect(
            list_of(alloc, Some(released(transfer)))?,
            transfer.masks,
            Scope::Piece(transfer.piece),
        )),
        Item::Acquire(transfer) => Ok(barrier_effect(
            acquire_accesses(alloc, transfer)?,
            transfer.masks,
            Scope::Piece(transfer.piece),
        )),
    }
}

// Every agent of these stages.
fn all_agents(stages: Stages) -> u16
    ensures { result ≡ all_agents stages.0 }
{
    agents(stages, Accesses::MEMORY_READ.union(Accesses::MEMORY_WRITE))
}

fn wait_effect(alloc: Global, wait: &WaitFor) -> Effect
    ensures { result ≡ wait_effect wait.now }
{
    Effect {
        accesses: List::new(alloc),
        available: 0,
        visible: all_agents(wait.stages),
        scope: Scope::Everywhere,
    }
}

fn signal_effect(alloc: Global, signal: &Signal) -> Effect
    ensures { result ≡ signal_effect signal.now }
{
    Effect {
        accesses: List::new(alloc),
        available: all_agents(signal.stages),
        visible: 0,
        scope: Scope::Everywhere,
    }
}

fn host_effect(alloc: Global, piece: u32) -> Result<Effect, NoMemory>
    ensures { IfOk result (λ effect. effect ≡ host_effect piece) }
{
    let access = Access {
        piece,
        kind: AccessKind::Load {
            agent: Agent::Host,
            layout: None,
        },
    };
    Ok(plain_effect(list_of(alloc, Some(access))?))
}

// What the node does that is this part of the program.
fn entry_effect(alloc: Global, shapes: &[Shape], entry: Entry<'_>) -> Result<Effect, NoMemory>
    requires { IsKnown shapes.now (seen entry) }
    ensures { IfOk result (λ effect. effect ≡ entry_effect shapes.now (seen entry.entry)) }
{
    match entry {
        Entry::Wait { wait, .. } => Ok(wait_effect(alloc, wait)),
        Entry::Item { queue, item } => item_effect(alloc, shapes, queue, item),
        Entry::Signal { signal, .. } => Ok(signal_effect(alloc, signal)),
        Entry::Host { piece } => host_effect(alloc, piece),
    }
}

/// What each node does, in the order of their numbers.
pub(crate) fn effects_of(alloc: Global, shaped: &ValidProgram) -> Result<List<Effect>, NoMemory>
    ensures { IfOk result (λ effects. effects ≡ map (entry_effect (shapes_of shaped.now)) (entries_of shaped.now)) }
{
    let shapes = shaped.program().shapes(alloc)?;
    let mut effects = List::new(alloc);
    for n in 0..shaped.node_count() {
        effects.push(entry_effect(alloc, &shapes, shaped.entry(n))?)?;
    }
    Ok(effects)
}
