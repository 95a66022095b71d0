//! Accesses in an order, and what is known of their nodes.

ghost use Rattle.std.specs.Prelude.{◌≡◌, ◌↔◌, ◌<◌, length, true};
ghost use Rattle.check_access.specs.ValidView.{ValidView, Listed};
ghost use Rattle.check_sync.specs.Internal.Listings.{IsListing};
ghost use Rattle.check_sync.specs.Internal.Places.{node_access_at, Known};
ghost use Rattle.check_access_order.specs.Order.{Before as IsBefore, EnteredFrom};
ghost use Rattle.check_sync.specs.Synchronized.{Ordered};
ghost use Rattle.check_access_order.specs.Ways.{HasWays};
ghost use Rattle.check_table.specs.Programs.{TableOf};

use check_access::{NodeAccess, View};
use check_access_order::stage_of;
use check_table::{OrderTable, table_laws};
use std::marker::Model;

/// The accesses of a program in an order, its view, and the table of its order.
#[derive(Drop)]
pub(crate) struct Listing<'a> {
    pub(crate) view: &'a View,
    pub(crate) table: &'a OrderTable,
    pub(crate) accesses: &'a [NodeAccess],
}

impl<'a> Model for Listing<'a> {
    ghost use Rattle.check_sync.specs.Internal.Listings.{InView};
    ghost use Rattle.check_sync.specs.Internal.Inside.{in_view, IsKnown};

    ghost Value = { InView };

    ghost view = { in_view };

    ghost invariant = { IsKnown };
}

impl<'a> Listing<'a> {
    pub(crate) fn new(
        view: &'a View,
        table: &'a OrderTable,
        accesses: &'a [NodeAccess],
    ) -> Listing<'a>
        requires shaped { ValidView view.now }
        requires ways { HasWays view.now }
        requires table { TableOf view.now table.now }
        requires listed { Listed view.now accesses.now }
        ensures { result ≡ record { view = view.now; accesses = accesses.now } }
    {
        Listing {
            view,
            table,
            accesses,
        }
    }

    /// Whether node `x` happens before node `y`.
    pub(crate) fn happens_before(&self, x: u32, y: u32) -> bool
        requires x { x < length self.now.view.nodes }
        requires y { y < length self.now.view.nodes }
        ensures { (result ≡ true) ↔ IsBefore self.now.view x y }
    {
        table_laws();
        self.table.happens_before(x, y)
    }

    /// Whether the access is entered by node `x` or one that comes after it.
    pub(crate) fn is_entered_from(&self, x: u32, b: NodeAccess) -> bool
        requires x { x < length self.now.view.nodes }
        requires b { Known self.now.view b }
        ensures { (result ≡ true) ↔ EnteredFrom self.now.view x b }
    {
        table_laws();
        self.table
            .is_entered_from(x, b.node, stage_of(b.access.kind))
    }

    /// Whether the first access is before the second.
    pub(crate) fn is_in_order(&self, a: NodeAccess, b: NodeAccess) -> bool
        requires a { Known self.now.view a }
        requires b { Known self.now.view b }
        ensures { (result ≡ true) ↔ Ordered self.now.view a b }
    {
        table_laws();
        let (first, second) = (stage_of(a.access.kind), stage_of(b.access.kind));
        self.table.is_in_order(a.node, first, b.node, second)
    }

    /// The access at place `i`.
    pub(crate) fn access(&self, i: usize) -> NodeAccess
        requires i { i < length self.now.accesses }
        ensures is { result ≡ node_access_at self.now.accesses i }
        ensures known { Known self.now.view result }
        ensures listing { IsListing self.now }
    {
        let accesses = self.accesses;
        accesses[i]
    }
}
