//! Uses by their commands, with the groups that they are in.

ghost use Rattle.std.specs.Prelude.{◌≡◌, ◌<◌, ◌^◌, map, length, IfOk, OnOk};
ghost use Rattle.std.specs.List.{All};
ghost use Rattle.compile_groups.specs.Internal.Buckets.{put_all, none_in, in_group, numbered_uses, group_among, looked_up, put_numbers};

use crate::buckets::Buckets;
use crate::{Use, UseAt};
use base::{List, NoMemory};
use std::alloc::Global;

// The uses of a group.
fn put_group(buckets: &mut Buckets<UseAt>, g: u32, group: &[Use]) -> Result<(), NoMemory>
    requires { All (λ u. u.command < length buckets.old) group.now }
    ensures { OnOk result (buckets.new ≡ put_all (λ u. u.command) (map (in_group g) group.now) buckets.old) }
{
    for one in group {
        let at = UseAt {
            command: one.command,
            operand: one.operand,
            resource: one.unit,
            group: g,
        };
        buckets.put(one.command, at)?;
    }
    Ok(())
}

/// The uses of all groups by their commands.
pub(crate) fn by_command(
    alloc: Global,
    commands: u32,
    groups: &[List<Use>],
) -> Result<Buckets<UseAt>, NoMemory>
    requires few { length groups.now < 2 ^ 32 }
    requires within { All (λ A. All (λ u. u.command < commands) A) groups.now }
    ensures { IfOk result (λ buckets. buckets ≡ put_all (λ u. u.command) (numbered_uses 0 groups.now) (none_in commands)) }
{
    let mut buckets = Buckets::new(alloc, commands)?;
    for (g, group) in groups.iter().enumerate() {
        put_group(&mut buckets, g as u32, group)?;
    }
    Ok(buckets)
}

// The group of the use of a unit, if it is among these.
fn group_among(uses: &[UseAt], unit: u32, none: u32) -> u32
    ensures { result ≡ group_among none uses.now unit }
{
    for at in uses {
        if at.resource == unit {
            return at.group;
        }
    }
    none
}

/// Uses with their groups.
pub(crate) fn looked_up(
    alloc: Global,
    uses: &[Use],
    by_command: &Buckets<UseAt>,
    none: u32,
) -> Result<List<UseAt>, NoMemory>
    requires { All (λ u. u.command < length by_command.now) uses.now }
    ensures { IfOk result (λ list. list ≡ map (looked_up none by_command.now) uses.now) }
{
    let mut list = List::new(alloc);
    for one in uses {
        let own = by_command.of(one.command);
        list.push(UseAt {
            command: one.command,
            operand: one.operand,
            resource: one.unit,
            group: group_among(own, one.unit, none),
        })?;
    }
    Ok(list)
}

/// The numbers of uses by their groups.
pub(crate) fn by_group(alloc: Global, groups: u32, uses: &[UseAt]) -> Result<Buckets<u32>, NoMemory>
    requires few { length uses.now < 2 ^ 32 }
    requires within { All (λ u. u.group < groups) uses.now }
    ensures { IfOk result (λ buckets. buckets ≡ put_numbers 0 uses.now (none_in groups)) }
{
    let mut buckets = Buckets::new(alloc, groups)?;
    for (k, at) in uses.iter().enumerate() {
        buckets.put(at.group, k as u32)?;
    }
    Ok(buckets)
}
