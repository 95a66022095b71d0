//! Halves of transfers of ownership in a file.

ghost use Rattle.std.specs.Prelude.{◌≡◌, Some, IfOk};
ghost use Rattle.file_json.specs.Locations.{legs};
ghost use Rattle.file_json.specs.Reading.{Gives};
ghost use Rattle.file_program.specs.Transfers.{both_at, has_layouts, layouts_at, transfer_at, with_layouts, with_families, transfer_data, FitsTransfer};
ghost use Rattle.serde_json.specs.View.{view, members_view};

use crate::barrier_masks::{piece_members, read_masks};
use crate::layout::LayoutForm;
use base::Family;
use file_json::{Location, Members, NumberForm, ReadError, TextForm, others, required, with_form};
use file_shapes::FamilyWord;
use program::Transfer;
use serde_json::Value;
use std::alloc::{AllocError, Global};
use vk::Layouts;

/// The members `from` and `to`, which both have to be there.
#[tactic(auto, unfolding(crate::specs::Transfers::both_at))]
pub fn read_both(alloc: Global, at: &Location<'_>, json: &Value) -> Result<Layouts, ReadError>
    ensures { Gives result (both_at (legs at.now) (view json.now)) }
{
    let from = required::<LayoutForm>(alloc, at, "from", json)?;
    let to = required::<LayoutForm>(alloc, at, "to", json)?;
    Ok(Layouts { from, to })
}

fn has_layouts(json: &Value) -> bool
    ensures { result ≡ has_layouts (view json.now) }
{
    json.get("from").is_some() || json.get("to").is_some()
}

// Where one of the two members stands alone, the other is absent.
#[tactic(auto, unfolding(crate::specs::Transfers::layouts_at))]
fn layouts(alloc: Global, at: &Location<'_>, json: &Value) -> Result<Option<Layouts>, ReadError>
    ensures { Gives result (layouts_at (legs at.now) (view json.now)) }
{
    if !has_layouts(json) {
        return Ok(None);
    }
    Ok(Some(read_both(alloc, at, json)?))
}

/// The members of a release or an acquire but for `item`, and that there are no others.
#[tactic(auto, unfolding(crate::specs::Transfers::transfer_at))]
pub fn read_transfer(alloc: Global, at: &Location<'_>, json: &Value) -> Result<Transfer, ReadError>
    ensures gives { Gives result (transfer_at (legs at.now) (view json.now)) }
    ensures fits { IfOk result FitsTransfer }
{
    let piece = required::<NumberForm>(alloc, at, "piece", json)?;
    let from_family = required::<TextForm<FamilyWord>>(alloc, at, "from_family", json)?;
    let to_family = required::<TextForm<FamilyWord>>(alloc, at, "to_family", json)?;
    let layouts = layouts(alloc, at, json)?;
    let masks = read_masks(alloc, at, json)?;
    others(
        alloc,
        at,
        &[
            "item",
            "piece",
            "from_family",
            "to_family",
            "from",
            "to",
            "src_stage",
            "src_access",
            "dst_stage",
            "dst_access",
        ],
        json,
    )?;
    Ok(Transfer {
        piece,
        from_family,
        to_family,
        layouts,
        masks,
    })
}

/// The members with `from` and `to`.
pub fn with_both(alloc: Global, members: Members, layouts: &Layouts) -> Result<Members, AllocError>
    ensures { IfOk result (λ more. members_view more.entries ≡ with_layouts (Some layouts.now) (members_view members.entries)) }
{
    let members = with_form::<LayoutForm>(alloc, members, "from", &layouts.from)?;
    with_form::<LayoutForm>(alloc, members, "to", &layouts.to)
}

fn with_families(
    alloc: Global,
    members: Members,
    from: &Family,
    to: &Family,
) -> Result<Members, AllocError>
    ensures { IfOk result (λ more. members_view more.entries ≡ with_families from.now to.now (members_view members.entries)) }
{
    let members = with_form::<TextForm<FamilyWord>>(alloc, members, "from_family", from)?;
    with_form::<TextForm<FamilyWord>>(alloc, members, "to_family", to)
}

/// A release or an acquire, by its word.
pub fn transfer_value(alloc: Global, item: &str, transfer: &Transfer) -> Result<Value, AllocError>
    ensures { IfOk result (λ json. view json ≡ transfer_data item.now transfer.now) }
{
    let members = piece_members(alloc, item, transfer.piece, &transfer.masks)?;
    let members = with_families(alloc, members, &transfer.from_family, &transfer.to_family)?;
    match &transfer.layouts {
        None => Ok(Value::Object(members)),
        Some(layouts) => Ok(Value::Object(with_both(alloc, members, layouts)?)),
    }
}
