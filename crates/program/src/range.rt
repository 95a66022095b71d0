//! Pieces are in their memories, and what is submitted fits the pieces.

ghost use Rattle.std.specs.Prelude.{◌≡◌, ◌<◌, ◌+◌, nat_le, length, IsTrue};
ghost use Rattle.std.specs.List.{All};
ghost use Rattle.base.specs.Operands.{operands_of};
ghost use Rattle.base.specs.Shapes.{is_buffer, is_image};
ghost use Rattle.program.specs.Limits.{memory_bytes};
ghost use Rattle.program.specs.Ranges.{lies_in, piece_in_range, is_so, has_operands, op_in_range, layouts_defined, layouts_stand, transfer_in_range, item_in_range};

use crate::{Item, Memory, Piece, Transfer};
use base::{Family, Op, Shape, op_fits, op_in_place, op_within};
use vk::{Layouts, family_number};

pub(crate) fn memory_bytes(memory: &Memory) -> u128
    ensures { result ≡ memory_bytes memory.now }
{
    match memory {
        Memory::Plain { size } => *size as u128,
        Memory::Import { bytes } => bytes.len() as u128,
    }
}

// Whether so many bytes from an offset on end within a size.
fn ends_within(offset: u128, bytes: u128, size: u128) -> bool
    ensures { result ≡ nat_le (offset + bytes) size }
{
    if size < bytes {
        false
    } else {
        offset <= size - bytes
    }
}

fn lies_in(piece: &Piece, memory: &Memory) -> bool
    ensures { result ≡ lies_in piece.now memory.now }
{
    piece.offset % 256 == 0
        && ends_within(
            piece.offset as u128,
            piece.shape.bytes(),
            memory_bytes(memory),
        )
}

pub(crate) fn piece_in_range(memories: &[Memory], piece: &Piece) -> bool
    ensures { result ≡ piece_in_range memories.now piece.now }
{
    match memories.get(piece.memory as usize) {
        Some(memory) => lies_in(piece, memory),
        None => true,
    }
}

/// Whether the piece with this number is a buffer, if there is one.
pub(crate) fn is_buffer(shapes: &[Shape], number: u32) -> bool
    ensures { result ≡ is_so is_buffer shapes.now number }
{
    match shapes.get(number as usize) {
        Some(shape) => shape.is_buffer(),
        None => true,
    }
}

fn is_image(shapes: &[Shape], number: u32) -> bool
    ensures { result ≡ is_so is_image shapes.now number }
{
    match shapes.get(number as usize) {
        Some(shape) => shape.is_image(),
        None => true,
    }
}

pub(crate) fn has_operands(shapes: &[Shape], op: &Op<u32>) -> bool
    ensures value { result ≡ has_operands shapes.now op.now }
    ensures within { IsTrue result → All (λ r. r < length shapes.now) (operands_of op.now) }
{
    op_within(op, shapes.len())
}

fn op_in_range(shapes: &[Shape], op: &Op<u32>) -> bool
    ensures { result ≡ op_in_range shapes.now op.now }
{
    if has_operands(shapes, op) {
        op_fits(op, shapes) && !op_in_place(op)
    } else {
        true
    }
}

fn layouts_defined(layouts: Option<Layouts>) -> bool
    ensures { result ≡ layouts_defined layouts }
{
    match layouts {
        None => true,
        Some(layouts) => !layouts.from.is_undefined() && !layouts.to.is_undefined(),
    }
}

fn layouts_stand(shapes: &[Shape], transfer: &Transfer) -> bool
    ensures { result ≡ is_so (layouts_stand transfer.now.layouts) shapes.now transfer.now.piece }
{
    match transfer.layouts {
        None => is_buffer(shapes, transfer.piece),
        Some(_) => is_image(shapes, transfer.piece),
    }
}

// Own is the family that the half of the transfer has to be on.
fn transfer_in_range(shapes: &[Shape], family: Family, own: Family, transfer: &Transfer) -> bool
    ensures { result ≡ transfer_in_range shapes.now family own transfer.now }
{
    layouts_stand(shapes, transfer)
        && family_number(transfer.from_family) != family_number(transfer.to_family)
        && family_number(own) == family_number(family)
        && layouts_defined(transfer.layouts)
}

pub(crate) fn item_in_range(shapes: &[Shape], family: Family, item: &Item) -> bool
    ensures { result ≡ item_in_range shapes.now family item.now }
{
    match item {
        Item::Command(op) => op_in_range(shapes, op),
        Item::Global(_) => true,
        Item::BufferBarrier(piece, _) => is_buffer(shapes, *piece),
        Item::ImageBarrier(piece, layouts, _) => {
            is_image(shapes, *piece) && !layouts.to.is_undefined()
        }
        Item::Release(transfer) => {
            transfer_in_range(shapes, family, transfer.from_family, transfer)
        }
        Item::Acquire(transfer) => transfer_in_range(shapes, family, transfer.to_family, transfer),
    }
}
