//! What a barrier does to its piece.

ghost use Rattle.std.specs.Prelude.{◌≡◌, [], option_to_list, IfOk};
ghost use Rattle.std.specs.Option.{option_map_or};
ghost use Rattle.check_access.specs.Effects.{access, transition_through, layout_change, handover_of, acquire_accesses};
ghost use Rattle.check_access.specs.declared.access.AccessKind.TheVariants as access_kinds;

use crate::command::push_some;
use crate::{Access, AccessKind, Handover};
use base::{List, NoMemory};
use program::Transfer;
use std::alloc::Global;
use vk::Layouts;

fn transition_through(piece: u32, layouts: Layouts) -> Option<Access>
    ensures { option_to_list result ≡ transition_through piece layouts }
{
    if layouts.from.is_undefined() || layouts.from.number() == layouts.to.number() {
        None
    } else {
        Some(Access {
            piece,
            kind: AccessKind::Transition(layouts),
        })
    }
}

/// What the transition of an image barrier does.
pub(crate) fn layout_change(piece: u32, layouts: Layouts) -> Option<Access>
    ensures { option_to_list result ≡ layout_change piece layouts }
{
    if layouts.from.is_undefined() {
        Some(Access {
            piece,
            kind: AccessKind::Discard(layouts.to),
        })
    } else {
        transition_through(piece, layouts)
    }
}

fn handover_of(transfer: &Transfer) -> Handover
    ensures { result ≡ handover_of transfer.now }
{
    Handover {
        from: transfer.from_family,
        to: transfer.to_family,
        layouts: transfer.layouts,
    }
}

/// What a release does.
pub(crate) fn released(transfer: &Transfer) -> Access
    ensures { result ≡ access transfer.now.piece (access_kinds.Release (handover_of transfer.now)) }
{
    Access {
        piece: transfer.piece,
        kind: AccessKind::Release(handover_of(transfer)),
    }
}

fn acquired_through(transfer: &Transfer) -> Option<Access>
    ensures { option_to_list result ≡ option_map_or (transition_through transfer.now.piece) transfer.now.layouts [] }
{
    match transfer.layouts {
        Some(layouts) => transition_through(transfer.piece, layouts),
        None => None,
    }
}

/// An acquire makes an image's transition, if there is one.
pub(crate) fn acquire_accesses(alloc: Global, transfer: &Transfer) -> Result<List<Access>, NoMemory>
    ensures { IfOk result (λ accesses. accesses ≡ acquire_accesses transfer.now) }
{
    let mut accesses = List::new(alloc);
    push_some(&mut accesses, acquired_through(transfer))?;
    accesses.push(Access {
        piece: transfer.piece,
        kind: AccessKind::Acquire(handover_of(transfer)),
    })?;
    Ok(accesses)
}
