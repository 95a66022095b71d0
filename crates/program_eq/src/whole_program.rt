//! Programs, from their items upwards.

ghost use Rattle.std.specs.Prelude.{◌≡◌, ◌↔◌, IsTrue};
ghost use Rattle.program.specs.declared.program.Item.TheVariants as items;
ghost use Rattle.program.specs.declared.program.Memory.TheVariants as memories;

use crate::Same;
use base::{List, Op};
use program::{Batch, Item, Memory, Program, Queue, Transfer};
use vk::{Layouts, Masks};

impl Same for Memory {
    fn same(&self, other: &Memory) -> bool {
        match self {
            Memory::Plain { size } => is_plain(other, *size),
            Memory::Import { bytes } => is_import(other, bytes),
        }
    }
}

fn is_plain(memory: &Memory, size: u32) -> bool
    ensures { IsTrue result ↔ (memory.now ≡ memories.Plain size) }
{
    match memory {
        Memory::Plain { size: own } => *own == size,
        Memory::Import { .. } => false,
    }
}

fn is_import(memory: &Memory, bytes: &List<u8>) -> bool
    ensures { IsTrue result ↔ (memory.now ≡ memories.Import bytes.now) }
{
    match memory {
        Memory::Plain { .. } => false,
        Memory::Import { bytes: own } => own.same(bytes),
    }
}

impl Same for Item {
    fn same(&self, other: &Item) -> bool {
        match self {
            Item::Command(op) => is_command(other, op),
            Item::Global(masks) => is_global(other, *masks),
            Item::BufferBarrier(piece, masks) => is_buffer_barrier(other, *piece, *masks),
            Item::ImageBarrier(piece, layouts, masks) => {
                is_image_barrier(other, *piece, *layouts, *masks)
            }
            Item::Release(transfer) => is_release(other, transfer),
            Item::Acquire(transfer) => is_acquire(other, transfer),
        }
    }
}

fn is_command(item: &Item, op: &Op<u32>) -> bool
    ensures { IsTrue result ↔ (item.now ≡ items.Command op.now) }
{
    match item {
        Item::Command(own) => own.same(op),
        _ => false,
    }
}

fn is_global(item: &Item, masks: Masks) -> bool
    ensures { IsTrue result ↔ (item.now ≡ items.Global masks) }
{
    match item {
        Item::Global(own) => *own == masks,
        _ => false,
    }
}

fn is_buffer_barrier(item: &Item, piece: u32, masks: Masks) -> bool
    ensures { IsTrue result ↔ (item.now ≡ items.BufferBarrier piece masks) }
{
    match item {
        Item::BufferBarrier(own_piece, own_masks) => *own_piece == piece && *own_masks == masks,
        _ => false,
    }
}

fn is_image_barrier(item: &Item, piece: u32, layouts: Layouts, masks: Masks) -> bool
    ensures { IsTrue result ↔ (item.now ≡ items.ImageBarrier piece layouts masks) }
{
    match item {
        Item::ImageBarrier(own_piece, own_layouts, own_masks) => {
            *own_piece == piece && *own_layouts == layouts && *own_masks == masks
        }
        _ => false,
    }
}

fn is_release(item: &Item, transfer: &Transfer) -> bool
    ensures { IsTrue result ↔ (item.now ≡ items.Release transfer.now) }
{
    match item {
        Item::Release(own) => own.same(transfer),
        _ => false,
    }
}

fn is_acquire(item: &Item, transfer: &Transfer) -> bool
    ensures { IsTrue result ↔ (item.now ≡ items.Acquire transfer.now) }
{
    match item {
        Item::Acquire(own) => own.same(transfer),
        _ => false,
    }
}

impl Same for Batch {
    fn same(&self, other: &Batch) -> bool {
        self.waits.same(&other.waits)
            && self.items.same(&other.items)
            && self.signal == other.signal
    }
}

impl Same for Queue {
    fn same(&self, other: &Queue) -> bool {
        self.family == other.family && self.batches.same(&other.batches)
    }
}

impl Same for Program {
    fn same(&self, other: &Program) -> bool {
        self.memories.same(&other.memories)
            && self.pieces.same(&other.pieces)
            && self.queues.same(&other.queues)
            && self.readbacks.same(&other.readbacks)
    }
}
