//! The first two accesses that are not synchronized.

ghost use Rattle.std.specs.Prelude.{◌≡◌, ℕ, ◌<◌, length, true, false, IfOk, MatchOption};
ghost use Rattle.check_access.specs.AccessKinds.{changes};
ghost use Rattle.check_access.specs.ValidView.{ValidView, Listed};
ghost use Rattle.check_access.specs.Views.{overlap};
ghost use Rattle.check_sync.specs.Internal.Chains.{IsIn, Links, BothLinks};
ghost use Rattle.check_sync.specs.Internal.Places.{node_access_at, piece_of, HasFlaw, IsFirstWith, PlacesSynchronizedBelow, SynchronizedAt};
ghost use Rattle.check_sync.specs.First.{DecidesSynchronized, FindsFirst};
ghost use Rattle.check_access_order.specs.Ways.{HasWays};
ghost use Rattle.check_table.specs.Programs.{TableOf};

use crate::chain::{Chain, Chains, clashes_with_loads};
use crate::listing::Listing;
use crate::{Flaw, SyncHazard};
use base::NoMemory;
use check_access::{NodeAccess, View};
use check_table::OrderTable;
use std::alloc::Global;

impl<'a> Listing<'a> {
    // Why the accesses at two places are not synchronized, if they are not.
    fn flaw_at(&self, i: usize, j: usize) -> Option<Flaw>
        requires i { i < length self.now.accesses }
        requires j { j < length self.now.accesses }
        ensures { MatchOption result (SynchronizedAt self.now.view self.now.accesses i j) (λ flaw. HasFlaw flaw self.now.view (node_access_at self.now.accesses i) (node_access_at self.now.accesses j)) }
    {
        self.flaw_between(self.access(i), self.access(j))
    }

    fn is_synchronized(&self, i: usize, j: usize) -> bool
        requires i { i < length self.now.accesses }
        requires j { j < length self.now.accesses }
        ensures { result ≡ true → SynchronizedAt self.now.view self.now.accesses i j }
    {
        match self.flaw_at(i, j) {
            None => true,
            Some(_) => false,
        }
    }

    // Whether all accesses of the piece in the chain are synchronized with the one at place `j`. Behind a change nothing is looked
    // at: what is synchronized with a change that is synchronized with `j` is synchronized with `j`.
    fn is_chain_synchronized(&self, chain: &Chain, j: usize, q: u32) -> bool
        requires j { j < length self.now.accesses }
        requires q { q < length self.now.view.pieces }
        requires links { Links self.now.accesses (length self.now.view.pieces) j chain.now.loads chain.now }
        requires below { PlacesSynchronizedBelow self.now.view self.now.accesses j }
        requires over { overlap self.now.view (piece_of self.now.accesses j) q ≡ true }
        ensures { result ≡ true → (i : ℕ) → i < j → piece_of self.now.accesses i ≡ q → IsIn chain.now.loads self.now.accesses i → SynchronizedAt self.now.view self.now.accesses i j }
    {
        let mut m = chain.last(q);
        'back: while m > 0 {
            let i = m - 1;
            if !self.is_synchronized(i, j) {
                return false;
            }
            if self.access(i).access.kind.changes() {
                return true;
            }
            m = chain.before(i);
        }
        true
    }

    // Whether all accesses in the chain are synchronized with the one at place `j`. Those of pieces that have no byte in common with its
    // piece are.
    fn are_pieces_synchronized(&self, chain: &Chain, j: usize) -> bool
        requires j { j < length self.now.accesses }
        requires links { Links self.now.accesses (length self.now.view.pieces) j chain.now.loads chain.now }
        requires below { PlacesSynchronizedBelow self.now.view self.now.accesses j }
        ensures { result ≡ true → (i : ℕ) → i < j → IsIn chain.now.loads self.now.accesses i → SynchronizedAt self.now.view self.now.accesses i j }
    {
        let piece = self.access(j).access.piece;
        for q in self.view.overlapping(piece) {
            if !self.is_chain_synchronized(chain, j, *q) {
                return false;
            }
        }
        true
    }

    // Whether all earlier accesses are synchronized with the one at place `j`. Loads do not clash with loads.
    fn are_all_synchronized(&self, chains: &Chains, j: usize) -> bool
        requires j { j < length self.now.accesses }
        requires links { BothLinks self.now.accesses (length self.now.view.pieces) j chains.now }
        requires below { PlacesSynchronizedBelow self.now.view self.now.accesses j }
        ensures { result ≡ true → (i : ℕ) → i < j → SynchronizedAt self.now.view self.now.accesses i j }
    {
        if clashes_with_loads(self.access(j).access.kind) {
            self.are_pieces_synchronized(&chains.all, j)
        } else {
            self.are_pieces_synchronized(&chains.no_loads, j)
        }
    }

    // The first access that is not synchronized with the one at place `j`.
    fn scan(&self, j: usize) -> Option<SyncHazard>
        requires j { j < length self.now.accesses }
        ensures { MatchOption result ((i : ℕ) → i < j → SynchronizedAt self.now.view self.now.accesses i j) (λ sync_hazard. IsFirstWith self.now.view self.now.accesses j sync_hazard) }
    {
        for i in 0..j {
            if let Some(flaw) = self.flaw_at(i, j) {
                return Some(SyncHazard {
                    first: self.access(i).node,
                    second: self.access(j).node,
                    flaw,
                });
            }
        }
        None
    }

    // The same; all accesses are looked at only where one is not synchronized.
    fn first_with(&self, chains: &Chains, j: usize) -> Option<SyncHazard>
        requires j { j < length self.now.accesses }
        requires links { BothLinks self.now.accesses (length self.now.view.pieces) j chains.now }
        requires below { PlacesSynchronizedBelow self.now.view self.now.accesses j }
        ensures { MatchOption result ((i : ℕ) → i < j → SynchronizedAt self.now.view self.now.accesses i j) (λ sync_hazard. IsFirstWith self.now.view self.now.accesses j sync_hazard) }
    {
        if self.are_all_synchronized(chains, j) {
            return None;
        }
        self.scan(j)
    }

    fn first(&self, alloc: Global) -> Result<Option<SyncHazard>, NoMemory>
        ensures { IfOk result (FindsFirst self.now.view self.now.accesses) }
    {
        let mut chains = Chains::new(alloc, self.view.piece_count())?;
        for j in 0..self.accesses.len() {
            if let Some(sync_hazard) = self.first_with(&chains, j) {
                return Ok(Some(sync_hazard));
            }
            chains.push(self, j)?;
        }
        Ok(None)
    }
}

/// The first two accesses that are not synchronized: of those with the least later one that with the least earlier one.
pub fn first_flaw(
    alloc: Global,
    view: &View,
    table: &OrderTable,
    accesses: &[NodeAccess],
) -> Result<Option<SyncHazard>, NoMemory>
    requires shaped { ValidView view.now }
    requires ways { HasWays view.now }
    requires table { TableOf view.now table.now }
    requires listed { Listed view.now accesses.now }
    ensures first { IfOk result (FindsFirst view.now accesses.now) }
    ensures synchronized { IfOk result (DecidesSynchronized view.now accesses.now) }
{
    Listing::new(view, table, accesses).first(alloc)
}
