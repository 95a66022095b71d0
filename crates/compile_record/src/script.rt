//! What is recorded for all commands.

ghost use Rattle.std.specs.Prelude.{◌≡◌, IfOk};
ghost use Rattle.compile_groups.specs.Laws.{IsGrouped, IsKnown, IsSmall};
ghost use Rattle.compile_record.specs.Internal.Resources.{all_resources};
ghost use Rattle.compile_record.specs.Script.{script};
ghost use Rattle.compile_barriers.specs.Prologues.{prologues as all_prologues};
ghost use Rattle.compile_barriers.specs.Under.{Heap};

use crate::Marked;
use crate::block::push_block;
use crate::resource::Resource;
use base::{List, NoMemory};
use compile_barriers::Prologue;
use compile_groups::Groups;
use std::alloc::Global;

/// What is recorded for the commands of a frame, one command after another.
pub(crate) fn script(
    alloc: Global,
    groups: &Groups,
    prologues: &[Prologue],
    resources: &[Resource],
) -> Result<List<Marked>, NoMemory>
    ghost heap: { Heap }
    requires prologues { prologues.now ≡ all_prologues groups.now heap }
    requires resources { resources.now ≡ all_resources groups.now }
    ensures script { IfOk result (λ list. list ≡ script groups.now heap) }
    ensures grouped { IsGrouped groups.now }
    ensures known { IsKnown groups.now }
    ensures small { IsSmall groups.now }
{
    let mut list = List::new(alloc);
    for (c, command) in groups.commands().iter().enumerate() {
        push_block(
            alloc, &mut list, groups, prologues, resources, c as u32, command,
        )?;
    }
    Ok(list)
}
