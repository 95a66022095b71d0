//! What is wrong with one access.

ghost use Rattle.std.specs.Prelude.{◌≡◌, ◌<◌, ◌↔◌, Some, true, false, length, MatchOption, IfSome, IfNone, IsTrue};
ghost use Rattle.check_access.specs.AccessKinds.{wanted, transfers};
ghost use Rattle.check_access.specs.ValidView.{NodeAccessAt, Listed, ValidView};
ghost use Rattle.check_access.specs.Views.{family_at};
ghost use Rattle.check_state.specs.StateValid.{acquires, needs_owner, StateValidAt, IsStateHazard};
ghost use Rattle.check_state.specs.Internal.Tables.{Finds};

use crate::StateHazard;
use crate::piece_state::PieceState;
use crate::same::same_handover;
use base::Family;
use check_access::{AccessKind, Handover, NodeAccess, View};
use vk::Layout;

// The layout that is wanted, where another one is found.
fn missed_layout(kind: AccessKind, found: Layout) -> Option<Layout>
    ensures none { IfNone result ((layout : Layout) → wanted kind ≡ Some layout → found ≡ layout) }
    ensures some { IfSome result (λ want. (wanted kind ≡ Some want) × (found ≡ want → ⊥)) }
{
    match kind.wanted() {
        Some(wanted) if found != wanted => Some(wanted),
        _ => None,
    }
}

// Whether the node is an acquire.
fn acquires(view: &View, n: u32) -> bool
    requires { n < length view.now.effects }
    ensures { result ≡ acquires view.now n }
{
    let accesses = view.effect_at(n).accesses.as_slice();
    accesses.iter().any(|a| a.kind.is_acquire())
}

/// Whether the node's own family has to own the piece of its access. It need not for a discard, for what an acquire does, for
/// what the host reads, and for a concurrent piece.
pub fn needs_owner(view: &View, node_access: NodeAccess) -> bool
    requires node { node_access.node < length view.now.nodes }
    requires effects { node_access.node < length view.now.effects }
    requires piece { node_access.access.piece < length view.now.pieces }
    ensures { result ≡ needs_owner view.now node_access }
{
    !(node_access.access.kind.is_discard()
        || acquires(view, node_access.node)
        || view.node(node_access.node).kind.is_host()
        || view.is_shared(node_access.access.piece))
}

// The family that has to own the piece, where it does not.
fn missed_owner(view: &View, node_access: NodeAccess, found: Option<Family>) -> Option<Family>
    requires shape { ValidView view.now }
    requires node { node_access.node < length view.now.nodes }
    requires piece { node_access.access.piece < length view.now.pieces }
    ensures none { IfNone result (needs_owner view.now node_access ≡ true → found ≡ family_at view.now node_access.node) }
    ensures some { IfSome result (λ want. (needs_owner view.now node_access ≡ true) × (family_at view.now node_access.node ≡ Some want) × (found ≡ Some want → ⊥)) }
{
    if !needs_owner(view, node_access) {
        return None;
    }
    let family = view.family(node_access.node);
    if found == family { None } else { family }
}

// Whether the other half of what is acquired is found before.
fn is_released(handover: Handover, last: Option<AccessKind>) -> bool
    ensures { IsTrue result ↔ last ≡ Some (AccessKind.Release handover) }
{
    match last {
        Some(AccessKind::Release(other)) => same_handover(other, handover),
        _ => false,
    }
}

// Whether the other half of what is released comes next.
fn is_acquired(handover: Handover, next: Option<AccessKind>) -> bool
    ensures { IsTrue result ↔ next ≡ Some (AccessKind.Acquire handover) }
{
    match next {
        Some(AccessKind::Acquire(other)) => same_handover(other, handover),
        _ => false,
    }
}

// Whether half of a transfer has its other half.
fn is_matched(kind: AccessKind, last: Option<AccessKind>, next: Option<AccessKind>) -> bool
    ensures release { (handover : Handover) → kind ≡ AccessKind.Release handover → IsTrue result ↔ next ≡ Some (AccessKind.Acquire handover) }
    ensures acquire { (handover : Handover) → kind ≡ AccessKind.Acquire handover → IsTrue result ↔ last ≡ Some (AccessKind.Release handover) }
    ensures other { transfers kind ≡ false → result ≡ true }
{
    match kind {
        AccessKind::Release(handover) => is_acquired(handover, next),
        AccessKind::Acquire(handover) => is_released(handover, last),
        _ => true,
    }
}

/// What is wrong with access `j` beside bytes: its layout, else its owner, else its other half.
pub(crate) fn state_hazard_at(
    view: &View,
    accesses: &[NodeAccess],
    j: usize,
    found: PieceState,
) -> Option<StateHazard>
    requires shape { ValidView view.now }
    requires listed { Listed view.now accesses.now }
    requires j { j < length accesses.now }
    requires found { (a : NodeAccess) → NodeAccessAt accesses.now j a → Finds view.now accesses.now j a.access.piece found }
    ensures { (a : NodeAccess) → NodeAccessAt accesses.now j a → MatchOption result (StateValidAt view.now accesses.now j a) (λ state_hazard. IsStateHazard state_hazard view.now accesses.now j a) }
{
    let node_access = accesses[j];
    let (node, piece, kind) = (
        node_access.node,
        node_access.access.piece,
        node_access.access.kind,
    );
    if let Some(wanted) = missed_layout(kind, found.layout) {
        return Some(StateHazard::BadLayout {
            node,
            piece,
            found: found.layout,
            wanted,
        });
    }
    if let Some(wanted) = missed_owner(view, node_access, found.owner) {
        return Some(StateHazard::BadOwner {
            node,
            piece,
            found: found.owner,
            wanted,
        });
    }
    if is_matched(kind, found.last, found.next) {
        None
    } else {
        Some(StateHazard::Unmatched { node })
    }
}
