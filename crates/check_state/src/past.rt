//! What accesses find of earlier ones.

ghost use Rattle.std.specs.Prelude.{◌+◌, ◌<◌, ℕ, List, [], length, take, IfOk};
ghost use Rattle.check_access.specs.ValidView.{NodeAccessAt};
ghost use Rattle.check_state.specs.Internal.Tables.{IsPast};

use crate::table::Table;
use base::NoMemory;
use check_access::NodeAccess;
use std::alloc::Global;

/// Of each piece the last access that set its layout, the last one that decided who owns it, and its last transfer.
#[derive(Drop)]
pub(crate) struct Past {
    pub(crate) layouts: Table,
    pub(crate) owners: Table,
    pub(crate) transfers: Table,
}

impl Past {
    /// Before all accesses.
    pub(crate) fn new(alloc: Global, pieces: usize) -> Result<Self, NoMemory>
        ensures { IfOk result (λ past. IsPast pieces [] past) }
    {
        Ok(Past {
            layouts: Table::new(alloc, pieces)?,
            owners: Table::new(alloc, pieces)?,
            transfers: Table::new(alloc, pieces)?,
        })
    }

    /// Goes past an access.
    pub(crate) fn add(&mut self, node_access: NodeAccess)
        requires layouts { node_access.access.piece < length self.old.layouts }
        requires owners { node_access.access.piece < length self.old.owners }
        requires transfers { node_access.access.piece < length self.old.transfers }
        ensures { (pieces : ℕ) (accesses : List NodeAccess) (j : ℕ) → NodeAccessAt accesses j node_access → IsPast pieces (take j accesses) self.old → IsPast pieces (take (j + 1) accesses) self.new }
    {
        let kind = node_access.access.kind;
        self.layouts.put(node_access, kind.sets_layout());
        self.owners.put(node_access, kind.sets_owner());
        self.transfers.put(node_access, kind.transfers());
    }
}
