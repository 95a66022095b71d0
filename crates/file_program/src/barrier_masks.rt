//! The masks of barriers in a file.

ghost use Rattle.std.specs.Prelude.{◌≡◌, IfOk};
ghost use Rattle.file_json.specs.Locations.{legs};
ghost use Rattle.file_json.specs.Reading.{Gives};
ghost use Rattle.file_program.specs.BarrierMasks.{masks_at, mask_members, piece_members, FitsMasks};
ghost use Rattle.serde_json.specs.View.{view, members_view};

use crate::mask::{AccessesForm, StagesForm};
use file_json::{Location, Members, ReadError, required, with_form, with_member, with_text};
use serde_json::{Map, Value};
use std::alloc::{AllocError, Global};
use vk::Masks;

/// The four masks of a barrier's object. That the value is an object, and that it has no unknown member, is for the
/// caller to test.
#[tactic(auto, unfolding(crate::specs::BarrierMasks::masks_at))]
pub fn read_masks(alloc: Global, at: &Location<'_>, json: &Value) -> Result<Masks, ReadError>
    ensures gives { Gives result (masks_at (legs at.now) (view json.now)) }
    ensures fits { IfOk result FitsMasks }
{
    let src_stages = required::<StagesForm>(alloc, at, "src_stage", json)?;
    let src_accesses = required::<AccessesForm>(alloc, at, "src_access", json)?;
    let dst_stages = required::<StagesForm>(alloc, at, "dst_stage", json)?;
    let dst_accesses = required::<AccessesForm>(alloc, at, "dst_access", json)?;
    Ok(Masks {
        src_stages,
        src_accesses,
        dst_stages,
        dst_accesses,
    })
}

/// The members that the four masks are written as.
pub fn mask_members(alloc: Global, masks: &Masks) -> Result<Members, AllocError>
    ensures { IfOk result (λ members. members_view members.entries ≡ mask_members masks.now) }
{
    let members = with_form::<StagesForm>(alloc, Map::new(alloc), "src_stage", &masks.src_stages)?;
    let members = with_form::<AccessesForm>(alloc, members, "src_access", &masks.src_accesses)?;
    let members = with_form::<StagesForm>(alloc, members, "dst_stage", &masks.dst_stages)?;
    with_form::<AccessesForm>(alloc, members, "dst_access", &masks.dst_accesses)
}

/// The members of a barrier on a piece: the word of the item, the piece's number, and the masks.
pub fn piece_members(
    alloc: Global,
    item: &str,
    piece: u32,
    masks: &Masks,
) -> Result<Members, AllocError>
    ensures { IfOk result (λ members. members_view members.entries ≡ piece_members item.now piece masks.now) }
{
    let members = with_text(alloc, mask_members(alloc, masks)?, "item", item)?;
    with_member(alloc, members, "piece", Value::from(piece))
}
