//! The submissions that make a frame.

ghost use Rattle.std.specs.Prelude.{◌≡◌, ◌≤◌, length, IfOk};
ghost use Rattle.base.specs.Maxima.{max_queues};
ghost use Rattle.frame.specs.Valid.{IsValid};
ghost use Rattle.frame.specs.Numbered.{numbered};
ghost use Rattle.compile_groups.specs.Placed.{placed};
ghost use Rattle.compile_heap.specs.Pairs.{has};
ghost use Rattle.compile_record.specs.Internal.Folded.{all_steps, whole_program};
ghost use Rattle.compile_record.specs.Internal.Resources.{IsOf, all_resources};
ghost use Rattle.compile_timeline.specs.Batches.{queues};
ghost use Rattle.compile_timeline.specs.Steps.{IsScript};
ghost use Rattle.compile_barriers.specs.Under.{Heap, heap_of};

use crate::pieces::{memories, pieces, readbacks};
use crate::resource::{Resource, all_resources};
use crate::script::script;
use crate::steps::steps_of;
use base::{List, NoMemory};
use compile_barriers::prologues;
use compile_groups::Groups;
use compile_heap::{Pairs, Placement};
use compile_timeline::{Step, batches};
use frame::ValidFrame;
use program::{Program, Queue};
use std::alloc::Global;

// What all queues do and need, in the order of recording.
fn steps(
    alloc: Global,
    groups: &Groups,
    ordered: &Pairs,
    placement: &Placement,
    resources: &[Resource],
) -> Result<List<Step>, NoMemory>
    ghost heap: { Heap }
    requires heap { heap ≡ heap_of ordered.now placement.now }
    requires families { length groups.now.families ≤ max_queues }
    requires ordered { ordered.now.count ≡ length (placed groups.now) }
    requires placement { length placement.now.offsets ≡ length (placed groups.now) }
    requires resources { resources.now ≡ all_resources groups.now }
    ensures steps { IfOk result (λ steps. steps ≡ all_steps groups.now heap) }
    ensures script { IfOk result (λ steps. IsScript steps (length groups.now.families)) }
{
    let prologues = prologues(alloc, groups, ordered, placement)?;
    let script = script(alloc, groups, prologues.as_slice(), resources)?;
    let steps = steps_of(alloc, script)?;
    Ok(steps)
}

// What is submitted to each queue.
fn queues_of(
    alloc: Global,
    groups: &Groups,
    ordered: &Pairs,
    placement: &Placement,
    resources: &[Resource],
) -> Result<List<Queue>, NoMemory>
    requires families { length groups.now.families ≤ max_queues }
    requires ordered { ordered.now.count ≡ length (placed groups.now) }
    requires placement { length placement.now.offsets ≡ length (placed groups.now) }
    requires resources { resources.now ≡ all_resources groups.now }
    ensures { IfOk result (λ list. list ≡ queues (all_steps groups.now (heap_of ordered.now placement.now)) groups.now.families) }
{
    let families = groups.families();
    let steps = steps(alloc, groups, ordered, placement, resources)?;
    let queues = batches(alloc, steps.as_slice(), families)?;
    Ok(queues)
}

fn with_resources(
    alloc: Global,
    frame: &ValidFrame,
    groups: &Groups,
    ordered: &Pairs,
    placement: &Placement,
    resources: &[Resource],
) -> Result<Program, NoMemory>
    requires good { IsValid (numbered frame.now) }
    requires of { IsOf (numbered frame.now) groups.now }
    requires ordered { ordered.now.count ≡ length (placed groups.now) }
    requires placement { length placement.now.offsets ≡ length (placed groups.now) }
    requires resources { resources.now ≡ all_resources groups.now }
    ensures { IfOk result (λ program. program ≡ whole_program (numbered frame.now) groups.now (has ordered.now) placement.now) }
{
    let memories = memories(alloc, frame, groups, placement.heap(), resources)?;
    let pieces = pieces(alloc, groups, placement, resources)?;
    let readbacks = readbacks(alloc, groups, resources)?;
    let queues = queues_of(alloc, groups, ordered, placement, resources)?;
    Ok(Program {
        memories,
        pieces,
        queues,
        readbacks,
    })
}

/// The submissions of a frame whose placed units lie at these places. `ordered` are the pairs of them that may share bytes.
pub(crate) fn program_of(
    alloc: Global,
    frame: &ValidFrame,
    groups: &Groups,
    ordered: &Pairs,
    placement: &Placement,
) -> Result<Program, NoMemory>
    requires of { IsOf (numbered frame.now) groups.now }
    requires ordered { ordered.now.count ≡ length (placed groups.now) }
    requires placement { length placement.now.offsets ≡ length (placed groups.now) }
    ensures { IfOk result (λ program. program ≡ whole_program (numbered frame.now) groups.now (has ordered.now) placement.now) }
{
    let units = frame.unit_count();
    let exports = frame.exports();
    let resources = all_resources(alloc, groups, units + exports.len() as u32)?;
    with_resources(alloc, frame, groups, ordered, placement, &resources)
}
