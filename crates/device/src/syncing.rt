//! What barriers, waits and signals do to main and to lines.

ghost use Rattle.std.specs.Prelude.{◌≡◌, ◌<◌, ◌^◌, length, if◌then◌else◌};
ghost use Rattle.device_cache.specs.Effects.{overwrite};
ghost use Rattle.device_cache.specs.Tables.{caches_of, junk_of};
ghost use Rattle.device_nodes.specs.Controls.{Agrees};
ghost use Rattle.device.specs.Internal.Syncs.{passes, moved_one, moved_agents, moved_by, junked, synced_caches, IsThere};
ghost use Rattle.device.specs.Internal.Tables.{HasCut, Stays};
ghost use Rattle.device_model.specs.Agents.{piece_range};
ghost use Rattle.device_model.specs.States.{State};
ghost use Rattle.device_model.specs.Steps.{agent_count, junks};
ghost use Rattle.check_access.specs.ValidView.{ValidView};
ghost use Rattle.check_access.specs.Views.{accesses_of, effect_at};

use crate::agents::has_agent;
use base::MemoryRange;
use check_access::{Access, Scope, View};
use device_cache::Segments;
use device_nodes::Control;

/// What becomes of lines: dirty ones go to main and become clean, or clean ones go away.
#[derive(Clone, Copy)]
pub(crate) enum Move {
    WriteBack,
    DropClean,
}

/// Agents of a queue, as a set.
#[derive(Clone, Copy)]
pub(crate) struct Agents {
    pub queue: u32,
    pub set: u16,
}

/// The bytes of a piece.
pub(crate) fn range_of(view: &View, piece: u32) -> MemoryRange
    requires there { piece < length view.now.pieces }
    requires short { (piece_range view.now piece).len < 2 ^ 32 }
    ensures { result ≡ piece_range view.now piece }
{
    let piece = view.piece(piece);
    MemoryRange {
        memory: piece.memory,
        start: piece.offset,
        len: piece.shape.bytes() as u32,
    }
}

// The lines of one agent, in a scope.
fn move_lines(table: &mut Segments, view: &View, kind: Move, agent: u32, scope: Scope)
    requires agent { agent < table.old.agents }
    requires cut { HasCut table.old view.now }
    requires scope { IsThere view.now scope }
    ensures bytes { caches_of table.new ≡ moved_one view.now kind agent scope (caches_of table.old) }
    ensures stays { Stays table.old table.new }
{
    match scope {
        Scope::Everywhere => match kind {
            Move::WriteBack => table.write_back_all(agent),
            Move::DropClean => table.drop_clean_all(agent),
        },
        Scope::Piece(piece) => {
            let MemoryRange { memory, start, len } = range_of(view, piece);
            match kind {
                Move::WriteBack => table.write_back(agent, memory, start, len),
                Move::DropClean => table.drop_clean(agent, memory, start, len),
            }
        }
    }
}

// The same, if the set has the agent.
fn move_agent(
    table: &mut Segments,
    view: &View,
    kind: Move,
    agents: Agents,
    agent: u32,
    scope: Scope,
)
    requires agent { agent < table.old.agents }
    requires cut { HasCut table.old view.now }
    requires scope { IsThere view.now scope }
    ensures bytes { caches_of table.new ≡ (if passes agents agent then moved_one view.now kind agent scope (caches_of table.old) else caches_of table.old) }
    ensures stays { Stays table.old table.new }
{
    if has_agent(agents.queue, agents.set, agent) {
        move_lines(table, view, kind, agent, scope);
    }
}

// Agent by agent, in rising number.
fn move_agents(table: &mut Segments, view: &View, kind: Move, agents: Agents, scope: Scope)
    requires cut { HasCut table.old view.now }
    requires scope { IsThere view.now scope }
    ensures bytes { caches_of table.new ≡ moved_agents view.now kind (passes agents) table.old.agents scope (caches_of table.old) }
    ensures stays { Stays table.old table.new }
{
    for agent in 0..table.agents() {
        move_agent(table, view, kind, agents, agent, scope);
    }
}

// Lines of the node's queue, in its scope.
fn move_by(table: &mut Segments, view: &View, node: u32, kind: Move, set: u16)
    requires agents { table.old.agents ≡ agent_count view.now }
    requires cut { HasCut table.old view.now }
    requires node { node < length view.now.nodes }
    requires effects { length view.now.effects ≡ length view.now.nodes }
    requires scope { IsThere view.now (effect_at view.now node).scope }
    ensures bytes { caches_of table.new ≡ moved_by view.now node kind set (caches_of table.old) }
    ensures stays { Stays table.old table.new }
{
    let queue = view.node(node).queue;
    let scope = view.effect_at(node).scope;
    move_agents(table, view, kind, Agents { queue, set }, scope);
}

// Whether an access leaves junk: it discards, or keeps what cannot be loaded.
fn leaves_junk(control: &Control, node: u32, access: Access) -> bool
    requires node { node < length control.now.view.nodes }
    requires piece { access.piece < length control.now.view.pieces }
    ensures { (s : State) → Agrees control.now s → result ≡ junks control.now.view s node access }
{
    access.kind.is_discard() || access.kind.loads() && control.loads_undefined(node, access)
}

fn leave_junk_in(table: &mut Segments, control: &Control, node: u32, access: Access)
    requires cut { HasCut table.old control.now.view }
    requires node { node < length control.now.view.nodes }
    requires piece { access.piece < length control.now.view.pieces }
    ensures bytes { (s : State) → Agrees control.now s → caches_of table.new ≡ (if junks control.now.view s node access then overwrite (piece_range control.now.view access.piece) (junk_of table.old) (caches_of table.old) else caches_of table.old) }
    ensures stays { Stays table.old table.new }
{
    if leaves_junk(control, node, access) {
        let range = range_of(control.view(), access.piece);
        table.junk(range.memory, range.start, range.len);
    }
}

// A piece that the node discards, or that it keeps while it cannot be loaded, becomes junk.
fn leave_junk(table: &mut Segments, control: &Control, node: u32)
    requires cut { HasCut table.old control.now.view }
    requires node { node < length control.now.view.nodes }
    ensures bytes { (s : State) → Agrees control.now s → caches_of table.new ≡ junked control.now.view s node (junk_of table.old) (accesses_of control.now.view node) (caches_of table.old) }
    ensures stays { Stays table.old table.new }
{
    let accesses = control.view().effect_at(node).accesses.as_slice();
    for access in accesses {
        leave_junk_in(table, control, node, *access);
    }
}

/// What a barrier, wait or signal does to main and to lines: stores that it makes available go to main, what it discards becomes
/// junk, and before agents to which it makes memory visible clean lines go away.
pub(crate) fn synchronise(table: &mut Segments, control: &Control, node: u32)
    requires agents { table.old.agents ≡ agent_count control.now.view }
    requires cut { HasCut table.old control.now.view }
    requires node { node < length control.now.view.nodes }
    requires scope { IsThere control.now.view (effect_at control.now.view node).scope }
    ensures bytes { (s : State) → Agrees control.now s → caches_of table.new ≡ synced_caches control.now.view s node (junk_of table.old) (caches_of table.old) }
    ensures stays { Stays table.old table.new }
    ensures shaped { ValidView control.now.view }
{
    let view = control.view();
    let effect = view.effect_at(node);
    move_by(table, view, node, Move::WriteBack, effect.available);
    leave_junk(table, control, node);
    move_by(table, view, node, Move::DropClean, effect.visible);
}
