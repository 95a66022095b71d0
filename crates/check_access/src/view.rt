//! A program as it is checked.

ghost use Rattle.std.specs.Prelude.{◌≡◌, ◌<◌, ◌≤◌, length, map, slice_get, false, IfOk};
ghost use Rattle.std.specs.Option.{option_map_or};
ghost use Rattle.base.specs.Maxima.{max_nodes};
ghost use Rattle.check_order.specs.Edges.{node_at};
ghost use Rattle.check_access.specs.ValidView.{ValidView};
ghost use Rattle.check_access.specs.Views.{view_of, is_import, piece_imported, effect_at, piece_at, has_agent, is_on, makes_available, makes_visible, clash, overlap, overlapping, imported_at, shared_at, family_at};

use crate::effects::effects_of;
use crate::overlaps::{lists_of, pieces_overlap};
use crate::{Access, Agent, Effect, Scope};
use base::{Family, List, NoMemory};
use check_order::{Edges, Node, direct};
use program::{Memory, Piece, Program, Queue, ValidProgram};
use std::alloc::Global;
use std::marker::Model;
use vk::HOST_AGENT;

/// The nodes of a program with what they do to memory, the pieces, and the families of the queues.
#[derive(Debug, Drop)]
pub struct View {
    edges: Edges,
    effects: List<Effect>,
    pieces: List<Piece>,
    // By the number of the piece, which it overlaps.
    overlapping: List<List<u32>>,
    imported: List<bool>,
    families: List<Family>,
}

impl Model for View {
    ghost use Rattle.check_access.specs.Views.{View};
    ghost use Rattle.check_access.specs.Internal.Inside.{view_in, KnowsOverlaps};

    ghost Value = { View };

    ghost view = { view_in };

    ghost invariant = { KnowsOverlaps };
}

impl View {
    /// The number of nodes.
    pub fn count(&self) -> usize
        ensures count { result ≡ length self.now.nodes }
        ensures few { result ≤ max_nodes }
    {
        self.edges.count()
    }

    /// The direct edges between nodes.
    pub fn edges(&self) -> &Edges
        ensures { result.now ≡ self.now.nodes }
    {
        &self.edges
    }

    /// The node with the number `n`.
    pub fn node(&self, n: u32) -> Node
        requires { n < length self.now.nodes }
        ensures { result ≡ node_at self.now.nodes n }
    {
        self.edges.node(n as usize)
    }

    /// What the node with the number `n` does to memory.
    pub fn effect_at(&self, n: u32) -> &Effect
        requires { n < length self.now.effects }
        ensures { result.now ≡ effect_at self.now n }
    {
        &self.effects[n as usize]
    }

    /// The family of the node's queue. A host read has none.
    pub fn family(&self, n: u32) -> Option<Family>
        requires { n < length self.now.nodes }
        ensures { result ≡ family_at self.now n }
    {
        self.families.get(self.node(n).queue as usize).copied()
    }

    /// The number of pieces.
    pub fn piece_count(&self) -> usize
        ensures { result ≡ length self.now.pieces }
    {
        self.pieces.len()
    }

    /// The piece with the number `p`.
    pub fn piece(&self, p: u32) -> Piece
        requires { p < length self.now.pieces }
        ensures { result ≡ piece_at self.now p }
    {
        self.pieces[p as usize]
    }

    /// Whether the pieces have bytes of a memory in common.
    pub fn overlap(&self, p: u32, q: u32) -> bool
        requires p { p < length self.now.pieces }
        requires q { q < length self.now.pieces }
        ensures { result ≡ overlap self.now p q }
    {
        pieces_overlap(self.piece(p), self.piece(q))
    }

    /// The pieces that have bytes of a memory in common with this one, in rising order.
    pub fn overlapping(&self, p: u32) -> &[u32]
        requires { p < length self.now.pieces }
        ensures { result.now ≡ overlapping self.now p }
    {
        self.overlapping[p as usize].as_slice()
    }

    /// Whether the piece needs no owner.
    pub fn is_shared(&self, p: u32) -> bool
        requires { p < length self.now.pieces }
        ensures { result ≡ shared_at self.now p }
    {
        self.piece(p).sharing.is_shared()
    }

    /// Whether the piece begins with an import's bytes.
    pub fn is_imported(&self, p: u32) -> bool
        requires { p < length self.now.imported }
        ensures { result ≡ imported_at self.now p }
    {
        self.imported[p as usize]
    }

    /// Whether the node makes the agent's stores to the piece available.
    pub fn makes_available(&self, n: u32, agent: Agent, p: u32) -> bool
        requires n { n < length self.now.nodes }
        requires effects { length self.now.effects ≡ length self.now.nodes }
        ensures { result ≡ makes_available self.now n agent p }
    {
        let (queue, effect) = (self.node(n).queue, self.effect_at(n));
        has_agent(queue, effect.available, agent) && is_on(p, effect.scope)
    }

    /// Whether the node makes the piece's memory visible to the agent.
    pub fn makes_visible(&self, n: u32, agent: Agent, p: u32) -> bool
        requires n { n < length self.now.nodes }
        requires effects { length self.now.effects ≡ length self.now.nodes }
        ensures { result ≡ makes_visible self.now n agent p }
    {
        let (queue, effect) = (self.node(n).queue, self.effect_at(n));
        has_agent(queue, effect.visible, agent) && is_on(p, effect.scope)
    }

    /// Whether the accesses have to be in order: a change and what touches the same bytes, or half of a transfer and what
    /// touches the same piece.
    pub fn clash(&self, a: Access, b: Access) -> bool
        requires a { a.piece < length self.now.pieces }
        requires b { b.piece < length self.now.pieces }
        ensures { result ≡ clash self.now a b }
    {
        self.overlap(a.piece, b.piece) && (a.kind.changes() || b.kind.changes())
            || a.piece == b.piece && (a.kind.transfers() || b.kind.transfers())
    }
}

// Whether a set of agents of a queue, and of the host, has the agent.
fn has_agent(of: u32, set: u16, agent: Agent) -> bool
    ensures { result ≡ has_agent of set agent }
{
    match agent {
        Agent::Of { queue, bit } => queue == of && set & bit != 0,
        Agent::Host => set & HOST_AGENT != 0,
    }
}

fn is_on(p: u32, scope: Scope) -> bool
    ensures { result ≡ is_on p scope }
{
    match scope {
        Scope::Everywhere => true,
        Scope::Piece(piece) => piece == p,
    }
}

fn is_import(memory: &Memory) -> bool
    ensures { result ≡ is_import memory.now }
{
    match memory {
        Memory::Plain { .. } => false,
        Memory::Import { .. } => true,
    }
}

fn in_import(memories: &[Memory], piece: Piece) -> bool
    ensures { result ≡ option_map_or is_import (slice_get memories.now piece.memory) false }
{
    match memories.get(piece.memory as usize) {
        Some(memory) => is_import(memory),
        None => false,
    }
}

fn imported_of(alloc: Global, program: &Program) -> Result<List<bool>, NoMemory>
    ensures { IfOk result (λ imported. imported ≡ map (piece_imported program.now.memories) program.now.pieces) }
{
    let mut imported = List::new(alloc);
    for piece in program.pieces.as_slice() {
        imported.push(piece.shape.is_buffer() && in_import(&program.memories, *piece))?;
    }
    Ok(imported)
}

fn families_of(alloc: Global, queues: &[Queue]) -> Result<List<Family>, NoMemory>
    ensures { IfOk result (λ families. families ≡ map (λ queue. queue.family) queues.now) }
{
    let mut families = List::new(alloc);
    for queue in queues {
        families.push(queue.family)?;
    }
    Ok(families)
}

/// A program as it is checked.
#[tactic(auto, using(crate::proofs::Viewing::shaped))]
pub fn view_of(alloc: Global, program: &ValidProgram) -> Result<View, NoMemory>
    ensures view { IfOk result (λ view. view ≡ view_of program.now) }
    ensures shaped { IfOk result (λ view. ValidView view) }
{
    let edges = direct(alloc, program)?;
    let effects = effects_of(alloc, program)?;
    let plain = program.program();
    Ok(View {
        edges,
        effects,
        pieces: plain.pieces.copy(alloc)?,
        overlapping: lists_of(alloc, &plain.pieces)?,
        imported: imported_of(alloc, plain)?,
        families: families_of(alloc, &plain.queues)?,
    })
}
