//! What comes after accesses.

ghost use Rattle.std.specs.Prelude.{◌≡◌, ◌+◌, ◌<◌, List, None, length, replicate, IfOk};
ghost use Rattle.check_access.specs.ValidView.{NodeAccessAt, Listed, ValidView};
ghost use Rattle.check_state.specs.Internal.Tables.{IsAhead};

use crate::table::{Table, kind_of};
use base::{List, NoMemory};
use check_access::{AccessKind, NodeAccess, View};
use std::alloc::Global;

/// The first accesses of pieces from some access on, and what comes after accesses.
#[derive(Drop)]
pub(crate) struct Ahead {
    /// Of each piece its first access that is no host read.
    pub(crate) owners: Table,
    /// Of each piece its first transfer.
    pub(crate) transfers: Table,
    /// Of each access the next transfer of its piece.
    pub(crate) next: List<Option<AccessKind>>,
}

impl Ahead {
    // After all accesses.
    fn new(alloc: Global, pieces: usize, count: usize) -> Result<Self, NoMemory>
        ensures owners { IfOk result (λ ahead. ahead.owners ≡ replicate pieces None) }
        ensures transfers { IfOk result (λ ahead. ahead.transfers ≡ replicate pieces None) }
        ensures next { IfOk result (λ ahead. ahead.next ≡ replicate count None) }
    {
        Ok(Ahead {
            owners: Table::new(alloc, pieces)?,
            transfers: Table::new(alloc, pieces)?,
            next: List::from_vec(vec![in alloc; None; count]?),
        })
    }

    // Goes back before access `j`.
    fn add(&mut self, view: &View, node_access: NodeAccess, j: usize)
        requires owners { node_access.access.piece < length self.old.owners }
        requires transfers { node_access.access.piece < length self.old.transfers }
        requires next { j < length self.old.next }
        requires node { node_access.node < length view.now.nodes }
        ensures { (accesses : List NodeAccess) → NodeAccessAt accesses j node_access → IsAhead view.now accesses (j + 1) self.old → IsAhead view.now accesses j self.new }
    {
        self.next
            .set(j, kind_of(self.transfers.at(node_access.access.piece)));
        self.transfers
            .put(node_access, node_access.access.kind.transfers());
        self.owners
            .put(node_access, !view.node(node_access.node).kind.is_host());
    }
}

/// What comes after each access.
pub(crate) fn ahead_of(
    alloc: Global,
    view: &View,
    accesses: &[NodeAccess],
) -> Result<Ahead, NoMemory>
    requires shape { ValidView view.now }
    requires listed { Listed view.now accesses.now }
    ensures { IfOk result (λ ahead. IsAhead view.now accesses.now 0 ahead) }
{
    let mut ahead = Ahead::new(alloc, view.piece_count(), accesses.len())?;
    for k in 0..accesses.len() {
        let j = accesses.len() - 1 - k;
        let node_access = accesses[j];
        ahead.add(view, node_access, j);
    }
    Ok(ahead)
}
