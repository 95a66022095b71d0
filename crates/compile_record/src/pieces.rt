//! Memories, the pieces that resources have in them, and what the host reads.

ghost use Rattle.std.specs.Prelude.{◌≡◌, ◌<◌, ◌^◌, ◌++◌, [], ◌∷◌, length, true, false, option_copied, IfOk, OnOk, if◌then◌else◌};
ghost use Rattle.base.specs.Shapes.{shape_at, bytes_of};
ghost use Rattle.frame.specs.Valid.{IsValid};
ghost use Rattle.frame.specs.Numbered.{numbered};
ghost use Rattle.compile_groups.specs.Groups.{sharing_of};
ghost use Rattle.compile_groups.specs.Placed.{placed};
ghost use Rattle.compile_heap.specs.Placing.{number_at};
ghost use Rattle.compile_record.specs.Internal.Resources.{IsOf, resource_at, all_resources};
ghost use Rattle.compile_record.specs.Pieces.{has_piece, has_memory, is_readback, piece, piece_of, pieces, imported, own_memory, memories, readbacks};

use crate::resource::Resource;
use base::{List, NoMemory, shape_at};
use compile_groups::Groups;
use compile_heap::Placement;
use frame::ValidFrame;
use program::{Memory, Piece};
use std::alloc::Global;
use vk::Sharing;

fn resource_at(groups: &Groups, resources: &[Resource], r: u32) -> Resource
    requires r { r < length groups.now.shapes }
    requires resources { resources.now ≡ all_resources groups.now }
    ensures { result ≡ resource_at groups.now r }
{
    resources[r as usize]
}

// PIECES

fn sharing_of(groups: &Groups, r: u32) -> Sharing
    requires { length groups.now.sharings ≡ length groups.now.imports }
    ensures { result ≡ sharing_of groups.now.sharings r }
{
    if r < groups.unit_count() {
        groups.sharing(r)
    } else {
        Sharing::Exclusive
    }
}

// A resource with a memory of its own begins with that.
fn offset_of(placement: &Placement, resource: Resource) -> u32
    requires { resource.has_memory ≡ false → resource.place < length placement.now.offsets }
    ensures { result ≡ (if resource.has_memory then 0 else number_at placement.now.offsets resource.place) }
{
    if resource.has_memory {
        return 0;
    }
    placement.offset(resource.place)
}

fn piece(groups: &Groups, placement: &Placement, resource: Resource, r: u32) -> Piece
    requires r { r < length groups.now.shapes }
    requires sharings { length groups.now.sharings ≡ length groups.now.imports }
    requires placement { length placement.now.offsets ≡ length (placed groups.now) }
    requires resource { resource ≡ resource_at groups.now r }
    requires piece { has_piece groups.now r ≡ true }
    ensures { result ≡ piece groups.now placement.now.offsets r }
{
    Piece {
        shape: shape_at(groups.shapes(), r),
        memory: resource.memory,
        offset: offset_of(placement, resource),
        sharing: sharing_of(groups, r),
    }
}

// The piece of a resource, if it has one.
fn push_piece(
    list: &mut List<Piece>,
    groups: &Groups,
    placement: &Placement,
    resources: &[Resource],
    r: u32,
) -> Result<(), NoMemory>
    requires r { r < length groups.now.shapes }
    requires sharings { length groups.now.sharings ≡ length groups.now.imports }
    requires placement { length placement.now.offsets ≡ length (placed groups.now) }
    requires resources { resources.now ≡ all_resources groups.now }
    ensures { OnOk result (list.new ≡ (if has_piece groups.now r then list.old ++ piece groups.now placement.now.offsets r ∷ [] else list.old)) }
{
    let resource = resource_at(groups, resources, r);
    if resource.has_piece {
        list.push(piece(groups, placement, resource, r))?;
    }
    Ok(())
}

/// The pieces of the resources that have one.
pub(crate) fn pieces(
    alloc: Global,
    groups: &Groups,
    placement: &Placement,
    resources: &[Resource],
) -> Result<List<Piece>, NoMemory>
    requires few { length groups.now.shapes < 2 ^ 32 }
    requires sharings { length groups.now.sharings ≡ length groups.now.imports }
    requires placement { length placement.now.offsets ≡ length (placed groups.now) }
    requires resources { resources.now ≡ all_resources groups.now }
    ensures { IfOk result (λ list. list ≡ pieces groups.now placement.now.offsets) }
{
    let mut list = List::new(alloc);
    for r in 0..resources.len() as u32 {
        push_piece(&mut list, groups, placement, resources, r)?;
    }
    Ok(list)
}

// MEMORIES

// The bytes of an import.
fn imported(frame: &ValidFrame, r: u32) -> Option<&[u8]>
    ensures { option_copied result ≡ imported (numbered frame.now) r }
{
    if r < frame.unit_count() {
        frame.import(r)
    } else {
        None
    }
}

fn own_memory(
    alloc: Global,
    frame: &ValidFrame,
    groups: &Groups,
    r: u32,
) -> Result<Memory, NoMemory>
    requires r { r < length groups.now.shapes }
    requires small { bytes_of (shape_at groups.now.shapes r) < 2 ^ 32 }
    ensures { IfOk result (λ memory. memory ≡ own_memory groups.now r (imported (numbered frame.now) r)) }
{
    match imported(frame, r) {
        Some(bytes) => Ok(Memory::Import {
            bytes: List::from_slice(alloc, bytes)?,
        }),
        None => Ok(Memory::Plain {
            size: shape_at(groups.shapes(), r).bytes() as u32,
        }),
    }
}

// The memory of a resource, if it has one.
fn push_memory(
    alloc: Global,
    list: &mut List<Memory>,
    frame: &ValidFrame,
    groups: &Groups,
    resources: &[Resource],
    r: u32,
) -> Result<(), NoMemory>
    requires r { r < length groups.now.shapes }
    requires small { bytes_of (shape_at groups.now.shapes r) < 2 ^ 32 }
    requires resources { resources.now ≡ all_resources groups.now }
    ensures { OnOk result (list.new ≡ (if has_memory groups.now r then list.old ++ own_memory groups.now r (imported (numbered frame.now) r) ∷ [] else list.old)) }
{
    let resource = resource_at(groups, resources, r);
    if resource.has_memory {
        list.push(own_memory(alloc, frame, groups, r)?)?;
    }
    Ok(())
}

/// The heap, and then a memory for each import that a command uses and each export.
pub(crate) fn memories(
    alloc: Global,
    frame: &ValidFrame,
    groups: &Groups,
    heap: u32,
    resources: &[Resource],
) -> Result<List<Memory>, NoMemory>
    requires good { IsValid (numbered frame.now) }
    requires of { IsOf (numbered frame.now) groups.now }
    requires resources { resources.now ≡ all_resources groups.now }
    ensures { IfOk result (λ list. list ≡ memories (numbered frame.now) groups.now heap) }
{
    let mut list = List::new(alloc);
    list.push(Memory::Plain { size: heap })?;
    for r in 0..resources.len() as u32 {
        push_memory(alloc, &mut list, frame, groups, resources, r)?;
    }
    Ok(list)
}

// READBACKS

// The number of a piece, if the host reads it.
fn push_readback(
    list: &mut List<u32>,
    groups: &Groups,
    resources: &[Resource],
    r: u32,
) -> Result<(), NoMemory>
    requires r { r < length groups.now.shapes }
    requires resources { resources.now ≡ all_resources groups.now }
    ensures { OnOk result (list.new ≡ (if is_readback groups.now r then list.old ++ piece_of groups.now r ∷ [] else list.old)) }
{
    if groups.unit_count() <= r {
        list.push(resource_at(groups, resources, r).piece)?;
    }
    Ok(())
}

/// The pieces that the host reads.
pub(crate) fn readbacks(
    alloc: Global,
    groups: &Groups,
    resources: &[Resource],
) -> Result<List<u32>, NoMemory>
    requires few { length groups.now.shapes < 2 ^ 32 }
    requires resources { resources.now ≡ all_resources groups.now }
    ensures { IfOk result (λ list. list ≡ readbacks groups.now) }
{
    let mut list = List::new(alloc);
    for r in 0..resources.len() as u32 {
        push_readback(&mut list, groups, resources, r)?;
    }
    Ok(list)
}
