//! The groups that a command uses.

ghost use Rattle.std.specs.Prelude.{◌≡◌, ◌<◌, ◌++◌, IfOk, OnOk};
ghost use Rattle.compile_record.specs.Internal.Wants.{group_by};
ghost use Rattle.compile_record.specs.Script.{groups_used};

use base::{List, NoMemory};
use compile_groups::{Groups, UseAt};
use std::alloc::Global;

// The group of a use, if it is one of the command.
fn push_group(list: &mut List<u32>, command: u32, one: &UseAt) -> Result<(), NoMemory>
    ensures { OnOk result (list.new ≡ list.old ++ group_by command one.now) }
{
    if one.command == command {
        list.push(one.group)
    } else {
        Ok(())
    }
}

/// The groups of the uses of a command, in the order of its operands.
pub(crate) fn groups_used(
    alloc: Global,
    groups: &Groups,
    command: u32,
) -> Result<List<u32>, NoMemory>
    ensures { IfOk result (λ list. list ≡ groups_used groups.now command) }
{
    let mut list = List::new(alloc);
    for one in groups.uses() {
        push_group(&mut list, command, one)?;
    }
    Ok(list)
}
