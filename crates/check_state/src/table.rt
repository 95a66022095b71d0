//! An access for each piece.

ghost use Rattle.std.specs.Prelude.{◌≡◌, ◌==◌, ◌&&◌, ◌<◌, length, get_or, replicate, IfOk, None};
ghost use Rattle.check_state.specs.PieceStates.{changes_bytes, kind_of};
ghost use Rattle.check_state.specs.Internal.Tables.{PutWhere};

use base::{List, NoMemory};
use check_access::{AccessKind, NodeAccess, View};
use std::alloc::Global;
use std::marker::Model;

/// For each piece the access that was put there last, if there is one.
#[derive(Drop)]
pub(crate) struct Table {
    accesses: List<Option<NodeAccess>>,
}

impl Model for Table {
    ghost use Rattle.std.specs.Prelude.{List, Option};
    ghost use Rattle.check_access.specs.declared.node_access.NodeAccess.{NodeAccess};

    ghost Value = { List (Option NodeAccess) };

    ghost view = { λ t. t.accesses };
}

impl Table {
    pub(crate) fn new(alloc: Global, pieces: usize) -> Result<Self, NoMemory>
        ensures { IfOk result (λ table. table ≡ replicate pieces None) }
    {
        Ok(Table {
            accesses: List::from_vec(vec![in alloc; None; pieces]?),
        })
    }

    pub(crate) fn at(&self, piece: u32) -> Option<NodeAccess>
        requires { piece < length self.now }
        ensures { result ≡ get_or self.now piece None }
    {
        self.accesses[piece as usize]
    }

    // Puts the access to a piece.
    fn put_at(&mut self, piece: u32, node_access: NodeAccess)
        requires { piece < length self.old }
        ensures { PutWhere (λ p. piece == p) node_access self.old self.new }
    {
        self.accesses.set(piece as usize, Some(node_access));
    }

    /// Puts the access to its own piece, if it `is_so`.
    pub(crate) fn put(&mut self, node_access: NodeAccess, is_so: bool)
        requires { node_access.access.piece < length self.old }
        ensures { PutWhere (λ p. (node_access.access.piece == p) && is_so) node_access self.old self.new }
    {
        if is_so {
            self.put_at(node_access.access.piece, node_access);
        }
    }

    /// Puts the access to each piece whose bytes it may change.
    pub(crate) fn put_over(&mut self, view: &View, node_access: NodeAccess)
        requires size { length self.old ≡ length view.now.pieces }
        requires piece { node_access.access.piece < length self.old }
        ensures { PutWhere (λ p. changes_bytes view.now p node_access) node_access self.old self.new }
    {
        if !node_access.access.kind.changes() {
            return;
        }
        for p in view.overlapping(node_access.access.piece) {
            self.put_at(*p, node_access);
        }
    }
}

pub(crate) fn kind_of(node_access: Option<NodeAccess>) -> Option<AccessKind>
    ensures { result ≡ kind_of node_access }
{
    match node_access {
        Some(node_access) => Some(node_access.access.kind),
        None => None,
    }
}
