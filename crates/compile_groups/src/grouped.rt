//! The groups of a kept frame, step by step.

ghost use Rattle.std.specs.Prelude.{◌≡◌, length, IfOk};
ghost use Rattle.frame.specs.Numbered.{numbered};
ghost use Rattle.compile_groups.specs.Internal.Buckets.{put_all, none_in};
ghost use Rattle.compile_groups.specs.Internal.Known.{AreKnown};
ghost use Rattle.compile_groups.specs.Commands.{all_shapes};
ghost use Rattle.compile_groups.specs.Groups.{all_uses, grouped, grouping};
ghost use Rattle.frame_cull.specs.Versions.{numbers_of};

use crate::buckets::Buckets;
use crate::by_command::{by_command, by_group, looked_up};
use crate::by_unit::{by_unit, groups_of_units};
use crate::commands::commands_of;
use crate::placed::{placed, sizes};
use crate::setting::{all_shapes, families, imports, sharings};
use crate::uses::uses_of;
use crate::{Command, Grouping, Groups, Use};
use base::{List, NoMemory, Shape};
use frame::ValidFrame;
use frame_cull::{Kept, Versions};
use std::alloc::Global;

fn grouping_of(
    alloc: Global,
    frame: &ValidFrame,
    shapes: List<Shape>,
    commands: List<Command>,
    by_unit: &Buckets<Use>,
) -> Result<Grouping, NoMemory>
    requires shapes { shapes ≡ all_shapes (numbered frame.now) }
    requires by_unit { by_unit.now ≡ put_all (λ u. u.unit) (all_uses (numbered frame.now) commands) (none_in (length (numbered frame.now).units)) }
    ensures { IfOk result (λ grouping. grouping ≡ grouped (numbered frame.now) commands) }
{
    let families = families(alloc, frame)?;
    let sharings = sharings(alloc, frame)?;
    let groups = groups_of_units(alloc, frame.unit_count(), &families, &sharings, by_unit)?;
    Ok(Grouping {
        shapes,
        sharings,
        imports: imports(alloc, frame)?,
        families,
        commands,
        groups,
    })
}

fn tabled(
    alloc: Global,
    frame: &ValidFrame,
    grouping: Grouping,
    uses: &[Use],
    by_unit: &Buckets<Use>,
) -> Result<Groups, NoMemory>
    requires known { AreKnown (numbered frame.now) grouping.commands }
    requires grouping { grouping ≡ grouped (numbered frame.now) grouping.commands }
    requires uses { uses.now ≡ all_uses (numbered frame.now) grouping.commands }
    requires by_unit { by_unit.now ≡ put_all (λ u. u.unit) uses.now (none_in (length (numbered frame.now).units)) }
    ensures { IfOk result (λ groups. groups ≡ grouping) }
{
    let count = grouping.groups.len() as u32;
    let commands = grouping.commands.len() as u32;
    let placed = placed(alloc, frame.unit_count(), &grouping.imports, by_unit)?;
    let sizes = sizes(alloc, &grouping.shapes, &placed)?;
    let by_command = by_command(alloc, commands, &grouping.groups)?;
    let uses = looked_up(alloc, uses, &by_command, count)?;
    let by_group = by_group(alloc, count, &uses)?;
    Ok(Groups::new(grouping, uses, by_group, placed, sizes))
}

// The groups of the uses of these commands.
fn of_commands(
    alloc: Global,
    frame: &ValidFrame,
    commands: List<Command>,
) -> Result<Groups, NoMemory>
    requires { AreKnown (numbered frame.now) commands }
    ensures { IfOk result (λ groups. groups ≡ grouped (numbered frame.now) commands) }
{
    let units = frame.unit_count();
    let shapes = all_shapes(alloc, frame)?;
    let uses = uses_of(alloc, &shapes, units, &commands)?;
    let by_unit = by_unit(alloc, units, &uses)?;
    let grouping = grouping_of(alloc, frame, shapes, commands, &by_unit)?;
    tabled(alloc, frame, grouping, &uses, &by_unit)
}

/// What the commands of a frame use, and in which groups, where these passes are kept. The work grows with the number of
/// uses.
pub fn groups_of(
    alloc: Global,
    frame: &ValidFrame,
    versions: &Versions,
    kept: &Kept,
) -> Result<Groups, NoMemory>
    requires versions { versions.now ≡ numbers_of (numbered frame.now) }
    requires kept { length kept.now ≡ length (numbered frame.now).passes }
    ensures { IfOk result (λ groups. groups ≡ grouping (numbered frame.now) kept.now) }
{
    let commands = commands_of(alloc, frame, versions, kept)?;
    of_commands(alloc, frame, commands)
}
