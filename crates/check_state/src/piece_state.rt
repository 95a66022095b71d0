//! What an access finds.

ghost use Rattle.std.specs.Prelude.{◌≡◌, ◌<◌, length, take, None, IfSome};
ghost use Rattle.std.specs.Option.{option_map_or};
ghost use Rattle.vk.specs.declared.layout.Layout.TheVariants.{Undefined};
ghost use Rattle.check_access.specs.ValidView.{NodeAccessAt, Listed, ValidView};
ghost use Rattle.check_access.specs.Views.{family_at};
ghost use Rattle.check_state.specs.PieceStates.{layout_after, owner_after, kind_of};
ghost use Rattle.check_state.specs.Internal.Tables.{Finds, IsAhead, IsPast};

use crate::ahead::Ahead;
use crate::past::Past;
use crate::table::kind_of;
use base::Family;
use check_access::{AccessKind, NodeAccess, View};
use vk::Layout;

/// What an access finds of its piece: the layout, the owner, and the last and the next transfer.
#[derive(Clone, Copy)]
pub(crate) struct PieceState {
    pub(crate) layout: Layout,
    pub(crate) owner: Option<Family>,
    pub(crate) last: Option<AccessKind>,
    pub(crate) next: Option<AccessKind>,
}

// The layout of the piece after it.
fn layout_after(kind: AccessKind) -> Layout
    ensures { result ≡ layout_after kind }
{
    match kind {
        AccessKind::Transition(layouts) => layouts.to,
        AccessKind::Discard(layout) => layout,
        _ => Layout::Undefined,
    }
}

// Who owns the piece after it, where its own family is `family`.
fn owner_after(kind: AccessKind, family: Option<Family>) -> Option<Family>
    ensures { result ≡ owner_after kind family }
{
    match kind {
        AccessKind::Release(_) => None,
        _ => family,
    }
}

fn layout_found(last: Option<NodeAccess>) -> Layout
    ensures { result ≡ option_map_or (λ a. layout_after a.access.kind) last Undefined }
{
    match last {
        Some(last) => layout_after(last.access.kind),
        None => Layout::Undefined,
    }
}

fn family_of(view: &View, first: Option<NodeAccess>) -> Option<Family>
    requires { IfSome first (λ a. a.node < length view.now.nodes) }
    ensures { result ≡ option_map_or (λ a. family_at view.now a.node) first None }
{
    match first {
        Some(first) => view.family(first.node),
        None => None,
    }
}

// The owner after the last access that decided it, or else the family of the first access of the piece.
fn owner_found(view: &View, last: Option<NodeAccess>, first: Option<NodeAccess>) -> Option<Family>
    requires last { IfSome last (λ a. a.node < length view.now.nodes) }
    requires first { IfSome first (λ a. a.node < length view.now.nodes) }
    ensures { result ≡ option_map_or (λ a. owner_after a.access.kind (family_at view.now a.node)) last (option_map_or (λ a. family_at view.now a.node) first None) }
{
    match last {
        Some(last) => owner_after(last.access.kind, view.family(last.node)),
        None => family_of(view, first),
    }
}

/// What access `j` finds.
pub(crate) fn found_at(
    view: &View,
    past: &Past,
    ahead: &Ahead,
    accesses: &[NodeAccess],
    j: usize,
) -> PieceState
    requires shape { ValidView view.now }
    requires listed { Listed view.now accesses.now }
    requires j { j < length accesses.now }
    requires past { IsPast (length view.now.pieces) (take j accesses.now) past.now }
    requires ahead { IsAhead view.now accesses.now 0 ahead.now }
    ensures { (a : NodeAccess) → NodeAccessAt accesses.now j a → Finds view.now accesses.now j a.access.piece result }
{
    let piece = accesses[j].access.piece;
    PieceState {
        layout: layout_found(past.layouts.at(piece)),
        owner: owner_found(view, past.owners.at(piece), ahead.owners.at(piece)),
        last: kind_of(past.transfers.at(piece)),
        next: ahead.next[j],
    }
}
