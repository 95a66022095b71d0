//! What stands round the groups of a unit, as items of its queue.

ghost use Rattle.std.specs.Prelude.{◌≡◌, ◌+◌, ◌-◌, ◌<◌, ◌++◌, [], ◌∷◌, length, OnOk};
ghost use Rattle.compile_groups.specs.Groups.{family_of};
ghost use Rattle.compile_groups.specs.Laws.{IsKnown};
ghost use Rattle.compile_groups.specs.Needs.{group_at};
ghost use Rattle.compile_record.specs.Internal.Resources.{all_resources};
ghost use Rattle.compile_record.specs.Internal.PrologueFacts.{Stands, Enters, entered};
ghost use Rattle.compile_record.specs.Items.{both, layouts_between, barrier, transfer, init, does_prologue, prologue_items, items_of, release_item};
ghost use Rattle.compile_record.specs.Pieces.{piece_of};
ghost use Rattle.compile_barriers.specs.Masks.{release_masks};
ghost use Rattle.compile_barriers.specs.Prologues.{earlier, first, last};
ghost use Rattle.compile_barriers.specs.declared.prologue.PrologueKind.TheVariants as kinds;

use crate::resource::Resource;
use crate::{Mark, Marked};
use base::{Family, List, NoMemory};
use compile_barriers::{Prologue, PrologueKind};
use compile_groups::{Groups, Use};
use program::{Item, Transfer};
use vk::{Accesses, Layout, Layouts, Masks};

/// The number of the piece of a resource.
pub(crate) fn piece_of(groups: &Groups, resources: &[Resource], r: u32) -> u32
    requires resources { resources.now ≡ all_resources groups.now }
    requires within { r < length groups.now.shapes }
    ensures { result ≡ piece_of groups.now r }
{
    resources[r as usize].piece
}

fn family_of(groups: &Groups, queue: u32) -> Family
    requires { queue < length groups.now.families }
    ensures { result ≡ family_of groups.now.families queue }
{
    groups.family(queue)
}

fn both(from: Option<Layout>, to: Option<Layout>) -> Option<Layouts>
    ensures { result ≡ both from to }
{
    match (from, to) {
        (Some(from), Some(to)) => Some(Layouts { from, to }),
        _ => None,
    }
}

fn layouts_between(before: &[Use], after: &[Use]) -> Option<Layouts>
    requires before { 0 < length before.now }
    requires after { 0 < length after.now }
    ensures { result ≡ layouts_between before.now after.now }
{
    both(before[before.len() - 1].layout, after[0].layout)
}

fn barrier(piece: u32, layouts: Option<Layouts>, masks: Masks) -> Item
    ensures { result ≡ barrier piece layouts masks }
{
    match layouts {
        Some(layouts) => Item::ImageBarrier(piece, layouts, masks),
        None => Item::BufferBarrier(piece, masks),
    }
}

// From the last of the uses before to the first of those after, of a unit with this piece.
fn transfer(groups: &Groups, piece: u32, before: &[Use], after: &[Use], masks: Masks) -> Transfer
    requires before { 0 < length before.now }
    requires after { 0 < length after.now }
    requires from { (last before.now).queue < length groups.now.families }
    requires to { (first after.now).queue < length groups.now.families }
    requires piece { piece ≡ piece_of groups.now (first after.now).unit }
    ensures { result ≡ transfer groups.now before.now after.now masks }
{
    Transfer {
        piece,
        from_family: family_of(groups, before[before.len() - 1].queue),
        to_family: family_of(groups, after[0].queue),
        layouts: layouts_between(before, after),
        masks,
    }
}

// The destination on both sides: nothing before it is made available.
fn entered(masks: Masks) -> Masks
    ensures { result ≡ entered masks }
{
    Masks {
        src_stages: masks.dst_stages,
        src_accesses: Accesses(0),
        dst_stages: masks.dst_stages,
        dst_accesses: masks.dst_accesses,
    }
}

// From the group right before group g to it.
fn transfer_to(groups: &Groups, resources: &[Resource], g: u32, masks: Masks) -> Transfer
    requires resources { resources.now ≡ all_resources groups.now }
    requires known { IsKnown groups.now }
    requires later { 0 < g }
    requires group { g < length groups.now.groups }
    ensures { result ≡ transfer groups.now (group_at groups.now (g - 1)) (group_at groups.now g) masks }
{
    let before = groups.members(g - 1);
    let after = groups.members(g);
    let piece = piece_of(groups, resources, after[0].unit);
    transfer(groups, piece, before, after, masks)
}

fn barrier_to(groups: &Groups, resources: &[Resource], g: u32, masks: Masks) -> Item
    requires resources { resources.now ≡ all_resources groups.now }
    requires known { IsKnown groups.now }
    requires later { 0 < g }
    requires group { g < length groups.now.groups }
    ensures { result ≡ barrier (piece_of groups.now (first (group_at groups.now g)).unit) (layouts_between (group_at groups.now (g - 1)) (group_at groups.now g)) masks }
{
    let before = groups.members(g - 1);
    let after = groups.members(g);
    let piece = piece_of(groups, resources, after[0].unit);
    barrier(piece, layouts_between(before, after), masks)
}

// Out of UNDEFINED.
fn init(groups: &Groups, resources: &[Resource], prologue: &Prologue) -> Item
    requires resources { resources.now ≡ all_resources groups.now }
    requires known { IsKnown groups.now }
    requires group { prologue.now.group < length groups.now.groups }
    requires enters { Enters groups.now prologue.now }
    ensures { result ≡ init groups.now (group_at groups.now prologue.now.group) }
{
    let after = groups.members(prologue.group);
    let piece = piece_of(groups, resources, after[0].unit);
    let layouts = both(Some(Layout::Undefined), after[0].layout);
    barrier(piece, layouts, entered(prologue.masks))
}

fn does_prologue(prologue: &Prologue, item: Item) -> Marked
    ensures { result ≡ does_prologue prologue.now item }
{
    Marked::Does {
        queue: prologue.queue,
        mark: Some(Mark::Prologue(prologue.group)),
        item,
    }
}

// A barrier on all memory, and then a transition out of UNDEFINED.
fn push_alias_init(
    script: &mut List<Marked>,
    groups: &Groups,
    resources: &[Resource],
    prologue: &Prologue,
) -> Result<(), NoMemory>
    requires resources { resources.now ≡ all_resources groups.now }
    requires known { IsKnown groups.now }
    requires group { prologue.now.group < length groups.now.groups }
    requires enters { Enters groups.now prologue.now }
    ensures { OnOk result (script.new ≡ script.old ++ items_of kinds.AliasInit groups.now prologue.now (earlier groups.now prologue.now.group) (group_at groups.now prologue.now.group)) }
{
    script.push(Marked::Does {
        queue: prologue.queue,
        mark: None,
        item: Item::Global(prologue.masks),
    })?;
    script.push(does_prologue(prologue, init(groups, resources, prologue)))
}

/// What stands before the first member of a group.
pub(crate) fn push_prologue(
    script: &mut List<Marked>,
    groups: &Groups,
    resources: &[Resource],
    prologue: &Prologue,
) -> Result<(), NoMemory>
    requires resources { resources.now ≡ all_resources groups.now }
    requires known { IsKnown groups.now }
    requires stands { Stands groups.now prologue.now }
    ensures { OnOk result (script.new ≡ script.old ++ prologue_items groups.now prologue.now (earlier groups.now prologue.now.group) (group_at groups.now prologue.now.group)) }
{
    match prologue.kind {
        PrologueKind::Nothing => Ok(()),
        PrologueKind::Barrier => {
            let item = barrier_to(groups, resources, prologue.group, prologue.masks);
            script.push(does_prologue(prologue, item))
        }
        PrologueKind::Transfer => {
            let transfer = transfer_to(groups, resources, prologue.group, prologue.masks);
            script.push(does_prologue(prologue, Item::Acquire(transfer)))
        }
        PrologueKind::Alias => script.push(does_prologue(prologue, Item::Global(prologue.masks))),
        PrologueKind::Init => script.push(does_prologue(
            prologue,
            init(groups, resources, prologue),
        )),
        PrologueKind::AliasInit => push_alias_init(script, groups, resources, prologue),
    }
}

/// The release after group g, where the next one is of the same unit and another family.
pub(crate) fn push_release(
    script: &mut List<Marked>,
    groups: &Groups,
    resources: &[Resource],
    g: u32,
    masks: Masks,
) -> Result<(), NoMemory>
    requires resources { resources.now ≡ all_resources groups.now }
    requires known { IsKnown groups.now }
    requires group { g + 1 < length groups.now.groups }
    requires few { g + 1 < 1152 }
    requires masks { masks ≡ release_masks (group_at groups.now g) (last (group_at groups.now g)).queue }
    ensures { OnOk result (script.new ≡ script.old ++ release_item groups.now g (group_at groups.now g) (group_at groups.now (g + 1)) ∷ []) }
{
    let members = groups.members(g);
    script.push(Marked::Does {
        queue: members[members.len() - 1].queue,
        mark: Some(Mark::Release(g)),
        item: Item::Release(transfer_to(groups, resources, g + 1, masks)),
    })
}
