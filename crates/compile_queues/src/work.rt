//! What the cost of a frame asks of its commands, whatever queues its passes run on.

ghost use Rattle.std.specs.Prelude.{◌≡◌, ◌<◌, ◌≤◌, ◌+◌, ◌/◌, ◌++◌, ◌==◌, [], ◌∷◌, map, length, if◌then◌else◌, IfOk, OnOk};
ghost use Rattle.std.specs.List.{All, range_with_len};
ghost use Rattle.compile_queues.specs.Internal.Sweep.{most_cost};
ghost use Rattle.compile_queues.specs.Internal.Work.{IsOf, IsWork, places};
ghost use Rattle.compile_queues.specs.Cost.{command_cost, costs};
ghost use Rattle.base.specs.Operands.{destination_of, operands_of};
ghost use Rattle.base.specs.Shapes.{bytes_of, shape_at};
ghost use Rattle.frame.specs.Numbered.{numbered};
ghost use Rattle.compile_groups.specs.Laws.{flat};

use crate::owners::owners;
use base::{Family, List, NoMemory, Op, Shape, shape_at};
use compile_groups::{Command, Groups, Use, groups_of};
use frame::ValidFrame;
use frame_cull::{Kept, cull, versions_of};
use std::alloc::Global;
use vk::Sharing;

/// The commands of a frame with all that does not depend on queues.
#[derive(Drop)]
pub(crate) struct Work {
    pub kept: Kept,
    /// Of each command.
    pub costs: List<u64>,
    /// For each command the pass on whose queue it is; without one it is on queue 0.
    pub owners: List<Option<u32>>,
    /// By unit, and then by command.
    pub uses: List<Use>,
    /// For each command the numbers of its uses.
    pub places: List<List<usize>>,
    /// Of the queues.
    pub families: List<Family>,
    /// Of the units.
    pub sharings: List<Sharing>,
}

fn destination(op: &Op<u32>) -> u32
    ensures { result ≡ destination_of op.now }
{
    op.operand(op.touch_count() - 1)
}

// 1, and 1 more for each whole 4,096 bytes of its destination.
fn command_cost(shapes: &[Shape], command: &Command) -> u64
    requires { All (λ r. r < length shapes.now) (operands_of command.now.op) }
    ensures cost { result ≡ 1 + bytes_of (shape_at shapes.now (destination_of command.now.op)) / 4096 }
    ensures small { result ≤ most_cost }
{
    let bytes = shape_at(shapes, destination(&command.op)).bytes();
    1 + (bytes / 4096) as u64
}

#[tactic(auto, using(crate::proofs::Walking::costs_more, crate::proofs::Walking::costs_all, crate::proofs::Walking::costs_few, crate::proofs::Walking::command_known))]
fn costs(alloc: Global, groups: &Groups) -> Result<List<u64>, NoMemory>
    ensures costs { IfOk result (λ list. list ≡ costs groups.now) }
    ensures few { IfOk result (λ list. length list ≤ 288) }
    ensures small { IfOk result (All (λ cost. cost ≤ most_cost)) }
{
    let shapes = groups.shapes();
    let commands = groups.commands();
    let mut list = List::new(alloc);
    for command in commands {
        list.push(command_cost(shapes, command))?;
    }
    Ok(list)
}

// The uses of all groups, one group after another.
#[tactic(auto, using(crate::proofs::Walking::flat_more, crate::proofs::Walking::flat_all))]
fn all_uses(alloc: Global, groups: &Groups) -> Result<List<Use>, NoMemory>
    ensures uses { IfOk result (λ uses. uses ≡ flat groups.now.groups) }
{
    let mut uses = List::new(alloc);
    for g in 0..groups.group_count() {
        uses.extend_from_slice(groups.members(g))?;
    }
    Ok(uses)
}

// The number of a use, if it is by the command.
fn push_place(places: &mut List<usize>, one: Use, j: usize, command: u32) -> Result<(), NoMemory>
    ensures { OnOk result (places.new ≡ (if one.command == command then places.old ++ j ∷ [] else places.old)) }
{
    if one.command == command {
        places.push(j)?;
    }
    Ok(())
}

// The numbers of the uses by a command.
#[tactic(auto, using(crate::proofs::Walking::place_all))]
fn places_of(alloc: Global, uses: &[Use], command: u32) -> Result<List<usize>, NoMemory>
    ensures { IfOk result (λ list. list ≡ places uses.now command) }
{
    let mut places = List::new(alloc);
    for (j, one) in uses.iter().enumerate() {
        push_place(&mut places, *one, j, command)?;
    }
    Ok(places)
}

#[tactic(auto, using(crate::proofs::Walking::places_more))]
fn all_places(alloc: Global, uses: &[Use], count: u32) -> Result<List<List<usize>>, NoMemory>
    ensures { IfOk result (λ list. list ≡ map (places uses.now) (range_with_len 0 count)) }
{
    let mut list = List::new(alloc);
    for command in 0..count {
        list.push(places_of(alloc, uses, command)?)?;
    }
    Ok(list)
}

fn of_groups(
    alloc: Global,
    kept: Kept,
    owners: List<Option<u32>>,
    groups: &Groups,
) -> Result<Work, NoMemory>
    ensures { IfOk result (IsOf kept owners groups.now) }
{
    let costs = costs(alloc, groups)?;
    let uses = all_uses(alloc, groups)?;
    let places = all_places(alloc, &uses, costs.len() as u32)?;
    Ok(Work {
        kept,
        costs,
        owners,
        uses,
        places,
        families: List::from_slice(alloc, groups.families())?,
        sharings: List::from_slice(alloc, groups.sharings())?,
    })
}

/// What the cost of a frame asks of its commands.
#[tactic(auto, using(crate::proofs::Swept::work_is))]
pub(crate) fn work_of(alloc: Global, frame: &ValidFrame) -> Result<Work, NoMemory>
    ensures { IfOk result (IsWork (numbered frame.now)) }
{
    let versions = versions_of(alloc, frame)?;
    let kept = cull(alloc, frame, &versions)?;
    let groups = groups_of(alloc, frame, &versions, &kept)?;
    let owners = owners(alloc, frame, &versions, &kept)?;
    of_groups(alloc, kept, owners, &groups)
}
