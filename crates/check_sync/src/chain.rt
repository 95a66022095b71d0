//! The accesses of each piece, from the latest back.

ghost use Rattle.std.specs.Prelude.{◌≡◌, ◌<◌, ◌+◌, List, length, get_or, IfOk, OnOk};
ghost use Rattle.check_access.specs.declared.node_access.NodeAccess.{NodeAccess};
ghost use Rattle.check_sync.specs.Internal.Chains.{Links, BothLinks};
ghost use Rattle.check_sync.specs.Internal.Places.{node_access_at, clashes_with_loads};

use crate::listing::Listing;
use base::NoMemory;
use check_access::{Access, AccessKind, NodeAccess};
use std::alloc::Global;

/// For each piece the place of its latest access so far, and for each access that of the earlier one of its piece, each
/// plus one, and 0 for none.
#[derive(Drop)]
pub(crate) struct Chain {
    // Whether loads are in it, or only what clashes with loads.
    loads: bool,
    last: Vec<usize>,
    prev: Vec<usize>,
}

/// Whether it is more than a load, so that it may clash with one.
pub(crate) fn clashes_with_loads(kind: AccessKind) -> bool
    ensures { result ≡ clashes_with_loads kind }
{
    kind.changes() || kind.transfers()
}

impl Chain {
    // A chain of no accesses yet.
    fn new(alloc: Global, loads: bool, pieces: usize) -> Result<Chain, NoMemory>
        ensures { IfOk result (λ chain. (accesses : List NodeAccess) → Links accesses pieces 0 loads chain) }
    {
        Ok(Chain {
            loads,
            last: vec![in alloc; 0; pieces]?,
            prev: Vec::new(alloc),
        })
    }

    /// One more than the place of the piece's latest access, or 0.
    pub(crate) fn last(&self, piece: u32) -> usize
        requires { piece < length self.now.last.items }
        ensures { result ≡ get_or self.now.last.items piece 0 }
    {
        self.last[piece as usize]
    }

    /// One more than the place of the access of the same piece before the one at place `i`, or 0.
    pub(crate) fn before(&self, i: usize) -> usize
        requires { i < length self.now.prev.items }
        ensures { result ≡ get_or self.now.prev.items i 0 }
    {
        self.prev[i]
    }

    // Takes the access at the next place.
    fn push(&mut self, accesses: &[NodeAccess], j: usize) -> Result<(), NoMemory>
        requires j { j < length accesses.now }
        requires piece { (node_access_at accesses.now j).access.piece < length self.old.last.items }
        requires links { Links accesses.now (length self.old.last.items) j self.old.loads self.old }
        ensures { OnOk result (Links accesses.now (length self.old.last.items) (j + 1) self.old.loads self.new) }
    {
        let Access { piece, kind } = accesses[j].access;
        let earlier = self.last(piece);
        self.prev.push(earlier)?;
        if self.loads || clashes_with_loads(kind) {
            self.last[piece as usize] = j + 1;
        }
        Ok(())
    }
}

/// All accesses, and those without loads.
#[derive(Drop)]
pub(crate) struct Chains {
    pub(crate) all: Chain,
    pub(crate) no_loads: Chain,
}

impl Chains {
    /// Chains of no accesses yet.
    pub(crate) fn new(alloc: Global, pieces: usize) -> Result<Chains, NoMemory>
        ensures { IfOk result (λ chains. (accesses : List NodeAccess) → BothLinks accesses pieces 0 chains) }
    {
        Ok(Chains {
            all: Chain::new(alloc, true, pieces)?,
            no_loads: Chain::new(alloc, false, pieces)?,
        })
    }

    /// Takes the access at the next place.
    pub(crate) fn push(&mut self, listing: &Listing, j: usize) -> Result<(), NoMemory>
        requires j { j < length listing.now.accesses }
        requires links { BothLinks listing.now.accesses (length listing.now.view.pieces) j self.old }
        ensures { OnOk result (BothLinks listing.now.accesses (length listing.now.view.pieces) (j + 1) self.new) }
    {
        self.all.push(listing.accesses, j)?;
        self.no_loads.push(listing.accesses, j)
    }
}
