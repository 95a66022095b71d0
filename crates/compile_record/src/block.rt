//! What is recorded for one command.

ghost use Rattle.std.specs.Prelude.{◌≡◌, ◌+◌, ◌<◌, ◌++◌, [], ◌∷◌, map, length, IfOk, IfSome, OnOk, Some, is_some, slice_get};
ghost use Rattle.std.specs.List.{All, flat_map};
ghost use Rattle.base.specs.Operands.{operands_of, mapped};
ghost use Rattle.compile_groups.specs.Laws.{IsGrouped, IsKnown};
ghost use Rattle.compile_groups.specs.Needs.{group_at};
ghost use Rattle.compile_record.specs.Internal.Resources.{all_resources};
ghost use Rattle.compile_record.specs.Internal.PrologueFacts.{IsUsed, Stands, released_items};
ghost use Rattle.compile_record.specs.Pieces.{piece_of};
ghost use Rattle.compile_record.specs.Script.{is_command, use_needs, use_prologues, use_releases, is_released, host_barrier, does_command, block};
ghost use Rattle.compile_record.specs.declared.mark.Marked.TheVariants.{Needs};
ghost use Rattle.compile_barriers.specs.Masks.{release_masks, host_masks};
ghost use Rattle.compile_barriers.specs.Prologues.{first, last, prologue_of, prologues as all_prologues};
ghost use Rattle.compile_barriers.specs.Under.{Heap};
ghost use Rattle.compile_barriers.specs.Unions.{on};

use crate::items::{piece_of, push_prologue, push_release};
use crate::needs::{need_elsewhere, need_first, need_prologue};
use crate::resource::Resource;
use crate::used::groups_used;
use crate::{Mark, Marked};
use base::{List, NoMemory, Op};
use compile_barriers::Prologue;
use compile_groups::{Command, Groups, Use};
use program::Item;
use std::alloc::Global;
use vk::{Accesses, Masks, Stages};

// What stands before group g.
fn prologue_of(groups: &Groups, prologues: &[Prologue], g: u32) -> Prologue
    ghost heap: { Heap }
    requires prologues { prologues.now ≡ all_prologues groups.now heap }
    requires group { g < length groups.now.groups }
    ensures is { result ≡ prologue_of groups.now heap g }
    ensures stands { Stands groups.now result }
{
    prologues[g as usize]
}

// Whether the command is the first member of group g.
fn begins(groups: &Groups, g: u32, command: u32) -> bool
    requires { g < length groups.now.groups }
    ensures { result ≡ is_command command (first (group_at groups.now g)) }
{
    groups.members(g)[0].command == command
}

// Whether the command is the last member of group g.
fn ends(groups: &Groups, g: u32, command: u32) -> bool
    requires { g < length groups.now.groups }
    ensures { result ≡ is_command command (last (group_at groups.now g)) }
{
    let members = groups.members(g);
    members[members.len() - 1].command == command
}

// Whether the first of the uses on a queue is that of the command.
fn is_first_on(uses: &[Use], queue: u32, command: u32) -> bool
    requires { 0 < length (on queue uses.now) }
    ensures { result ≡ is_command command (first (on queue uses.now)) }
{
    for one in uses {
        if one.queue == queue {
            return one.command == command;
        }
    }
    false
}

// BEFORE THE COMMAND

// What the command's queue needs by one of its groups.
fn need_group(
    script: &mut List<Marked>,
    groups: &Groups,
    prologues: &[Prologue],
    queue: u32,
    command: u32,
    g: u32,
) -> Result<(), NoMemory>
    ghost heap: { Heap }
    requires prologues { prologues.now ≡ all_prologues groups.now heap }
    requires used { IsUsed groups.now queue g }
    ensures { OnOk result (script.new ≡ script.old ++ map (Needs queue) (use_needs groups.now heap queue command g)) }
{
    let prologue = prologue_of(groups, prologues, g);
    if begins(groups, g, command) {
        need_first(script, groups, queue, &prologue)
    } else if is_first_on(groups.members(g), queue, command) {
        need_prologue(script, queue, &prologue)
    } else {
        Ok(())
    }
}

// What the command's queue needs by all of its groups.
fn need_groups(
    script: &mut List<Marked>,
    groups: &Groups,
    prologues: &[Prologue],
    queue: u32,
    command: u32,
    used: &[u32],
) -> Result<(), NoMemory>
    ghost heap: { Heap }
    requires prologues { prologues.now ≡ all_prologues groups.now heap }
    requires used { All (IsUsed groups.now queue) used.now }
    ensures { OnOk result (script.new ≡ script.old ++ map (Needs queue) (flat_map (use_needs groups.now heap queue command) used.now)) }
{
    for g in used {
        need_group(script, groups, prologues, queue, command, *g)?;
    }
    Ok(())
}

// The prologue of one of the command's groups, if the command is the group's first member.
fn push_prologue_of(
    script: &mut List<Marked>,
    groups: &Groups,
    prologues: &[Prologue],
    resources: &[Resource],
    command: u32,
    g: u32,
) -> Result<(), NoMemory>
    ghost heap: { Heap }
    requires prologues { prologues.now ≡ all_prologues groups.now heap }
    requires resources { resources.now ≡ all_resources groups.now }
    requires known { IsKnown groups.now }
    requires group { g < length groups.now.groups }
    ensures { OnOk result (script.new ≡ script.old ++ use_prologues groups.now heap command g) }
{
    if begins(groups, g, command) {
        push_prologue(
            script,
            groups,
            resources,
            &prologue_of(groups, prologues, g),
        )
    } else {
        Ok(())
    }
}

// The prologues of all of the command's groups of which it is the first member.
fn push_prologues(
    script: &mut List<Marked>,
    groups: &Groups,
    prologues: &[Prologue],
    resources: &[Resource],
    command: u32,
    used: &[u32],
) -> Result<(), NoMemory>
    ghost heap: { Heap }
    requires prologues { prologues.now ≡ all_prologues groups.now heap }
    requires resources { resources.now ≡ all_resources groups.now }
    requires known { IsKnown groups.now }
    requires used { All (λ g. g < length groups.now.groups) used.now }
    ensures { OnOk result (script.new ≡ script.old ++ flat_map (use_prologues groups.now heap command) used.now) }
{
    for g in used {
        push_prologue_of(script, groups, prologues, resources, command, *g)?;
    }
    Ok(())
}

// AFTER THE COMMAND

// The masks of the release after group g, if there is one.
#[tactic(auto, using(crate::proofs::PrologueFacts::masks_given))]
fn released(groups: &Groups, prologues: &[Prologue], g: u32) -> Option<Masks>
    ghost heap: { Heap }
    requires prologues { prologues.now ≡ all_prologues groups.now heap }
    requires group { g < length groups.now.groups }
    ensures is { is_some result ≡ is_released groups.now heap g }
    ensures within { IfSome result (λ masks. g + 1 < length groups.now.groups) }
    ensures few { IfSome result (λ masks. g + 1 < 1152) }
    ensures masks { IfSome result (λ masks. masks ≡ release_masks (group_at groups.now g) (last (group_at groups.now g)).queue) }
{
    if groups.group_count() > g + 1 {
        prologue_of(groups, prologues, g + 1).release
    } else {
        None
    }
}

// The release after group g, with what it needs.
fn release_group(
    script: &mut List<Marked>,
    groups: &Groups,
    resources: &[Resource],
    queue: u32,
    g: u32,
    masks: Masks,
) -> Result<(), NoMemory>
    requires resources { resources.now ≡ all_resources groups.now }
    requires known { IsKnown groups.now }
    requires group { g + 1 < length groups.now.groups }
    requires few { g + 1 < 1152 }
    requires masks { masks ≡ release_masks (group_at groups.now g) (last (group_at groups.now g)).queue }
    ensures { OnOk result (script.new ≡ script.old ++ released_items groups.now queue g) }
{
    let members = groups.members(g);
    let own = members[members.len() - 1].queue;
    need_elsewhere(script, groups, queue, own, members)?;
    push_release(script, groups, resources, g, masks)
}

// The release of one of the command's groups, if the command is the group's last member.
fn push_release_of(
    script: &mut List<Marked>,
    groups: &Groups,
    prologues: &[Prologue],
    resources: &[Resource],
    queue: u32,
    command: u32,
    g: u32,
) -> Result<(), NoMemory>
    ghost heap: { Heap }
    requires prologues { prologues.now ≡ all_prologues groups.now heap }
    requires resources { resources.now ≡ all_resources groups.now }
    requires known { IsKnown groups.now }
    requires group { g < length groups.now.groups }
    ensures { OnOk result (script.new ≡ script.old ++ use_releases groups.now heap queue command g) }
{
    if !ends(groups, g, command) {
        return Ok(());
    }
    match released(groups, prologues, g) {
        Some(masks) => release_group(script, groups, resources, queue, g, masks),
        None => Ok(()),
    }
}

// The releases of all of the command's groups of which it is the last member.
fn push_releases(
    script: &mut List<Marked>,
    groups: &Groups,
    prologues: &[Prologue],
    resources: &[Resource],
    queue: u32,
    command: u32,
    used: &[u32],
) -> Result<(), NoMemory>
    ghost heap: { Heap }
    requires prologues { prologues.now ≡ all_prologues groups.now heap }
    requires resources { resources.now ≡ all_resources groups.now }
    requires known { IsKnown groups.now }
    requires used { All (λ g. g < length groups.now.groups) used.now }
    ensures { OnOk result (script.new ≡ script.old ++ flat_map (use_releases groups.now heap queue command) used.now) }
{
    for g in used {
        push_release_of(script, groups, prologues, resources, queue, command, *g)?;
    }
    Ok(())
}

fn host_masks() -> Masks
    ensures { result ≡ host_masks }
{
    Masks {
        src_stages: Stages::COPY,
        src_accesses: Accesses::TRANSFER_WRITE,
        dst_stages: Stages::HOST,
        dst_accesses: Accesses::HOST_READ,
    }
}

// The host may read the copy of an export.
fn push_host_barrier(
    script: &mut List<Marked>,
    groups: &Groups,
    resources: &[Resource],
    command: &Command,
) -> Result<(), NoMemory>
    requires resources { resources.now ≡ all_resources groups.now }
    requires operands { All (λ r. r < length groups.now.shapes) (operands_of command.now.op) }
    ensures { OnOk result (script.new ≡ script.old ++ host_barrier groups.now command.now command.now.export) }
{
    match command.export {
        None => Ok(()),
        Some(_) => {
            let destination = command.op.operand(command.op.touch_count() - 1);
            let piece = piece_of(groups, resources, destination);
            script.push(Marked::Does {
                queue: command.queue,
                mark: None,
                item: Item::BufferBarrier(piece, host_masks()),
            })
        }
    }
}

// THE COMMAND

// The operation over pieces.
fn on_pieces(
    alloc: Global,
    groups: &Groups,
    resources: &[Resource],
    op: &Op<u32>,
) -> Result<Op<u32>, NoMemory>
    requires resources { resources.now ≡ all_resources groups.now }
    requires operands { All (λ r. r < length groups.now.shapes) (operands_of op.now) }
    ensures { IfOk result (λ moved. moved ≡ mapped (piece_of groups.now) op.now) }
{
    op.mapped(alloc, |r: u32| Ok(piece_of(groups, resources, r)))
}

fn push_command(
    alloc: Global,
    script: &mut List<Marked>,
    groups: &Groups,
    resources: &[Resource],
    c: u32,
    command: &Command,
) -> Result<(), NoMemory>
    requires resources { resources.now ≡ all_resources groups.now }
    requires operands { All (λ r. r < length groups.now.shapes) (operands_of command.now.op) }
    ensures { OnOk result (script.new ≡ script.old ++ does_command groups.now c command.now ∷ []) }
{
    let op = on_pieces(alloc, groups, resources, &command.op)?;
    script.push(Marked::Does {
        queue: command.queue,
        mark: Some(Mark::Command(c)),
        item: Item::Command(op),
    })
}

/// What is recorded for command c: what it needs, what stands before it, the command, and what follows it.
pub(crate) fn push_block(
    alloc: Global,
    script: &mut List<Marked>,
    groups: &Groups,
    prologues: &[Prologue],
    resources: &[Resource],
    c: u32,
    command: &Command,
) -> Result<(), NoMemory>
    ghost heap: { Heap }
    requires prologues { prologues.now ≡ all_prologues groups.now heap }
    requires resources { resources.now ≡ all_resources groups.now }
    requires grouped { IsGrouped groups.now }
    requires known { IsKnown groups.now }
    requires there { slice_get groups.now.commands c ≡ Some command.now }
    ensures { OnOk result (script.new ≡ script.old ++ block groups.now heap c command.now) }
{
    let queue = command.queue;
    let list = groups_used(alloc, groups, c)?;
    let used = list.as_slice();
    need_groups(script, groups, prologues, queue, c, used)?;
    push_prologues(script, groups, prologues, resources, c, used)?;
    push_command(alloc, script, groups, resources, c, command)?;
    push_releases(script, groups, prologues, resources, queue, c, used)?;
    push_host_barrier(script, groups, resources, command)
}
