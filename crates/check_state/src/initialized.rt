//! The first load of bytes that were not stored through its piece.

ghost use Rattle.std.specs.Prelude.{◌≡◌, ◌<◌, ℕ, List, length, IfOk, IfSome, MatchOption};
ghost use Rattle.check_access.specs.ValidView.{Listed, ValidView};
ghost use Rattle.check_state.specs.Initialized.{Initialized, InitializedAt, FirstLoadHazard, IsLoadHazard};
ghost use Rattle.check_state.specs.PieceStates.{last_change};

use crate::LoadHazard;
use crate::table::Table;
use base::NoMemory;
use check_access::{NodeAccess, View};
use std::alloc::Global;

// What is wrong with the bytes that the access loads, after the last change of bytes of its piece.
fn check_load(
    view: &View,
    node_access: NodeAccess,
    change: Option<NodeAccess>,
) -> Option<LoadHazard>
    requires { node_access.access.piece < length view.now.imported }
    ensures { (accesses : List NodeAccess) (j : ℕ) → change ≡ last_change view.now accesses j node_access.access.piece → MatchOption result (InitializedAt view.now accesses j node_access) (λ load_hazard. IsLoadHazard load_hazard view.now accesses j node_access) }
{
    let (node, piece) = (node_access.node, node_access.access.piece);
    if !node_access.access.kind.loads() {
        return None;
    }
    match change {
        Some(change) if change.access.piece != piece => Some(LoadHazard::Aliased {
            node,
            piece,
            other: change.access.piece,
        }),
        Some(change) if change.access.kind.stores() => None,
        None if view.is_imported(piece) => None,
        _ => Some(LoadHazard::Undefined { node, piece }),
    }
}

/// What is wrong with the first load of bytes that nobody stored, or that were stored last through another piece.
pub fn first_load_hazard(
    alloc: Global,
    view: &View,
    accesses: &[NodeAccess],
) -> Result<Option<LoadHazard>, NoMemory>
    requires shape { ValidView view.now }
    requires listed { Listed view.now accesses.now }
    ensures first { IfOk result (λ first. MatchOption first (Initialized view.now accesses.now) (λ load_hazard. FirstLoadHazard view.now accesses.now load_hazard)) }
    ensures refutes { IfOk result (λ first. IfSome first (λ load_hazard. Initialized view.now accesses.now → ⊥)) }
{
    let mut changed = Table::new(alloc, view.piece_count())?;
    for j in 0..accesses.len() {
        let node_access = accesses[j];
        if let Some(load_hazard) = check_load(
            view,
            node_access,
            changed.at(node_access.access.piece),
        ) {
            return Ok(Some(load_hazard));
        }
        changed.put_over(view, node_access);
    }
    Ok(None)
}
