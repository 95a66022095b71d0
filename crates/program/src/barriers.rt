//! The rules on masks.

ghost use Rattle.std.specs.Prelude.{◌≡◌};
ghost use Rattle.program.specs.Barriers.{masks_of, masks_are, has_stages, both_have_stages, nothing_ignored, both_supported, both_on_family, on_queue};

use crate::Item;
use base::Family;
use bitflags::Flags;
use vk::{Masks, Stages, family_number, on_family, supports};

// A barrier's masks. Release and acquire are barriers.
fn masks_of(item: &Item) -> Option<Masks>
    ensures { result ≡ masks_of item.now }
{
    match item {
        Item::Command(_) => None,
        Item::Global(masks) | Item::BufferBarrier(_, masks) => Some(*masks),
        Item::ImageBarrier(_, _, masks) => Some(*masks),
        Item::Release(transfer) | Item::Acquire(transfer) => Some(transfer.masks),
    }
}

pub(crate) fn has_stages(stages: Stages) -> bool
    ensures { result ≡ has_stages stages.0 }
{
    !stages.is_empty()
}

/// Whether both stage masks of a barrier have a stage.
pub(crate) fn item_has_stages(item: &Item) -> bool
    ensures { result ≡ masks_are both_have_stages item.now }
{
    match masks_of(item) {
        Some(masks) => has_stages(masks.src_stages) && has_stages(masks.dst_stages),
        None => true,
    }
}

/// Whether a release has no destination access, and an acquire no source access.
pub(crate) fn nothing_ignored(item: &Item) -> bool
    ensures { result ≡ nothing_ignored item.now }
{
    match item {
        Item::Release(transfer) => transfer.masks.dst_accesses.is_empty(),
        Item::Acquire(transfer) => transfer.masks.src_accesses.is_empty(),
        _ => true,
    }
}

/// Whether the stages of a barrier support its accesses.
pub(crate) fn item_supported(item: &Item) -> bool
    ensures { result ≡ masks_are both_supported item.now }
{
    match masks_of(item) {
        Some(masks) => {
            supports(masks.src_stages, masks.src_accesses)
                && supports(masks.dst_stages, masks.dst_accesses)
        }
        None => true,
    }
}

/// Whether a family has the stages of a barrier.
pub(crate) fn item_on_queue(family: Family, item: &Item) -> bool
    ensures { result ≡ masks_are (both_on_family family) item.now }
{
    match masks_of(item) {
        Some(masks) => {
            on_family(masks.src_stages, family_number(family))
                && on_family(masks.dst_stages, family_number(family))
        }
        None => true,
    }
}

/// Whether a family has the stages of a wait or signal, which are none of the host's.
pub(crate) fn on_queue(family: Family, stages: Stages) -> bool
    ensures { result ≡ on_queue family stages.0 }
{
    on_family(stages, family_number(family)) && !stages.intersects(Stages::HOST)
}
