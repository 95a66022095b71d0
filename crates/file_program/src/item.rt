//! Items in a file.

ghost use Rattle.std.specs.Prelude.{◌≡◌, IfOk};
ghost use Rattle.file_json.specs.Locations.{legs};
ghost use Rattle.file_json.specs.Reading.{Gives};
ghost use Rattle.file_program.specs.Items.{global_at, buffer_at, image_at, kind_at, item_at, global_data, buffer_data, image_data, item_data, FitsItem};
ghost use Rattle.serde_json.specs.View.{view};

use crate::barrier_masks::{mask_members, piece_members, read_masks};
use crate::command::{command_value, read_command};
use crate::item_kind::{ItemKind, ItemKindForm};
use crate::transfer::{read_both, read_transfer, transfer_value, with_both};
use file_json::{
    Location, NumberForm, ReadError, Reader, Writer, object, others, required, with_text,
};
use program::Item;
use serde_json::Value;
use std::alloc::{AllocError, Global};
use vk::{Layouts, Masks};

/// An entry of `items`.
pub struct ItemForm;

#[tactic(auto, unfolding(crate::specs::Items::global_at))]
fn global(alloc: Global, at: &Location<'_>, json: &Value) -> Result<Item, ReadError>
    ensures gives { Gives result (global_at (legs at.now) (view json.now)) }
    ensures fits { IfOk result FitsItem }
{
    let masks = read_masks(alloc, at, json)?;
    others(
        alloc,
        at,
        &["item", "src_stage", "src_access", "dst_stage", "dst_access"],
        json,
    )?;
    Ok(Item::Global(masks))
}

#[tactic(auto, unfolding(crate::specs::Items::buffer_at))]
fn buffer(alloc: Global, at: &Location<'_>, json: &Value) -> Result<Item, ReadError>
    ensures gives { Gives result (buffer_at (legs at.now) (view json.now)) }
    ensures fits { IfOk result FitsItem }
{
    let piece = required::<NumberForm>(alloc, at, "piece", json)?;
    let masks = read_masks(alloc, at, json)?;
    others(
        alloc,
        at,
        &[
            "item",
            "piece",
            "src_stage",
            "src_access",
            "dst_stage",
            "dst_access",
        ],
        json,
    )?;
    Ok(Item::BufferBarrier(piece, masks))
}

#[tactic(auto, unfolding(crate::specs::Items::image_at))]
fn image(alloc: Global, at: &Location<'_>, json: &Value) -> Result<Item, ReadError>
    ensures gives { Gives result (image_at (legs at.now) (view json.now)) }
    ensures fits { IfOk result FitsItem }
{
    let piece = required::<NumberForm>(alloc, at, "piece", json)?;
    let layouts = read_both(alloc, at, json)?;
    let masks = read_masks(alloc, at, json)?;
    others(
        alloc,
        at,
        &[
            "item",
            "piece",
            "from",
            "to",
            "src_stage",
            "src_access",
            "dst_stage",
            "dst_access",
        ],
        json,
    )?;
    Ok(Item::ImageBarrier(piece, layouts, masks))
}

#[tactic(auto, unfolding(crate::specs::Items::kind_at))]
fn of_kind(
    alloc: Global,
    at: &Location<'_>,
    kind: ItemKind,
    json: &Value,
) -> Result<Item, ReadError>
    ensures gives { Gives result (kind_at kind (legs at.now) (view json.now)) }
    ensures fits { IfOk result FitsItem }
{
    match kind {
        ItemKind::Command => read_command(alloc, at, json),
        ItemKind::Global => global(alloc, at, json),
        ItemKind::Buffer => buffer(alloc, at, json),
        ItemKind::Image => image(alloc, at, json),
        ItemKind::Release => Ok(Item::Release(read_transfer(alloc, at, json)?)),
        ItemKind::Acquire => Ok(Item::Acquire(read_transfer(alloc, at, json)?)),
    }
}

impl Reader for ItemForm {
    type Out = Item;

    ghost reads = { item_at };

    ghost Fits = { FitsItem };

    #[tactic(auto, unfolding(crate::specs::Items::item_at))]
    fn read(alloc: Global, at: &Location<'_>, json: &Value) -> Result<Item, ReadError> {
        object(alloc, at, json)?;
        let kind = required::<ItemKindForm>(alloc, at, "item", json)?;
        of_kind(alloc, at, kind, json)
    }
}

fn global_value(alloc: Global, masks: &Masks) -> Result<Value, AllocError>
    ensures { IfOk result (λ json. view json ≡ global_data masks.now) }
{
    let members = with_text(alloc, mask_members(alloc, masks)?, "item", "global")?;
    Ok(Value::Object(members))
}

fn buffer_value(alloc: Global, piece: u32, masks: &Masks) -> Result<Value, AllocError>
    ensures { IfOk result (λ json. view json ≡ buffer_data piece masks.now) }
{
    Ok(Value::Object(piece_members(alloc, "buffer", piece, masks)?))
}

fn image_value(
    alloc: Global,
    piece: u32,
    layouts: &Layouts,
    masks: &Masks,
) -> Result<Value, AllocError>
    ensures { IfOk result (λ json. view json ≡ image_data piece layouts.now masks.now) }
{
    let members = piece_members(alloc, "image", piece, masks)?;
    Ok(Value::Object(with_both(alloc, members, layouts)?))
}

impl Writer for ItemForm {
    type In = Item;

    ghost writes = { item_data };

    fn write(alloc: Global, item: &Item) -> Result<Value, AllocError> {
        match item {
            Item::Command(op) => command_value(alloc, op),
            Item::Global(masks) => global_value(alloc, masks),
            Item::BufferBarrier(piece, masks) => buffer_value(alloc, *piece, masks),
            Item::ImageBarrier(piece, layouts, masks) => {
                image_value(alloc, *piece, layouts, masks)
            }
            Item::Release(transfer) => transfer_value(alloc, "release", transfer),
            Item::Acquire(transfer) => transfer_value(alloc, "acquire", transfer),
        }
    }
}
