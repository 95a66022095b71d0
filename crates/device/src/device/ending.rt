//! A command ends.

ghost use Rattle.std.specs.Prelude.{◌≡◌, ◌<◌, ◌≤◌, ◌-◌, ◌^◌, ◌↔◌, true, false, IsTrue, length, replicate, IfSome, IfNone};
ghost use Rattle.std.specs.Arc.{arc_value};
ghost use Rattle.base.specs.Operands.{destination_of};
ghost use Rattle.base.specs.Shapes.{bytes_of, shape_at};
ghost use Rattle.base.specs.declared.event.Event.TheVariants as events;
ghost use Rattle.device_cache.specs.Effects.{put};
ghost use Rattle.device_cache.specs.Tables.{caches_of, Keeps};
ghost use Rattle.device.specs.Internal.Loads.{IsWork, LoadsIn};
ghost use Rattle.device.specs.Internal.Results.{IsResult};
ghost use Rattle.device.specs.Internal.Tables.{IsCutOut};
ghost use Rattle.device.specs.Landings.{MatchLanded};
ghost use Rattle.device_model.specs.Agents.{agent_of, piece_range};
ghost use Rattle.device_model.specs.Devices.{state_of, did};
ghost use Rattle.device_model.specs.Outputs.{no_old, stored_by};
ghost use Rattle.device_model.specs.States.{is_begun};
ghost use Rattle.device_model.specs.Steps.{store_of};

use super::Device;
use crate::agents::{agent_of, store_of};
use crate::buffer::junk_if;
use crate::comparing::same_loads;
use crate::job::{Command, Finished, Landed};
use crate::nodes::op_of;
use crate::pending::{Pending, take_pending};
use crate::running::stored_by;
use crate::weight::are_more;
use base::{Event, Op, Shape};
use check_access::View;
use device_cache::{Contents, Segments};
use device_model::{device_laws, event_laws};
use program::ValidProgram;
use program_eq::Same;
use std::alloc::Global;
use std::sync::Arc;

fn same_shapes(a: &[Shape], b: &[Shape]) -> bool
    ensures { IsTrue result ↔ (a.now ≡ b.now) }
{
    a == b
}

fn has_op(command: &Command, op: &Op<u32>, shapes: &[Shape]) -> bool
    ensures { result ≡ true → (command.now.op ≡ op.now) × (command.now.shapes ≡ shapes.now) }
{
    command.op.same(op) && same_shapes(&command.shapes, shapes)
}

fn same_program(a: &ValidProgram, b: &ValidProgram) -> bool
    ensures { result ≡ true → a.now ≡ b.now }
{
    a.program().same(b.program())
}

// What was computed, where it is of this command and of what it loaded; else it is computed here. Where it is known
// that it loaded this, nothing of that is compared.
fn computed(
    op: &Op<u32>,
    shapes: &[Shape],
    pending: Pending,
    known: bool,
    command: &Command,
    done: Contents,
) -> Contents
    requires work { IsWork shapes.now op.now pending.loaded pending.work }
    requires room { pending.room ≡ no_old shapes.now op.now }
    requires known { known ≡ true → command.now.loaded ≡ pending.loaded }
    requires done { IsResult command.now done }
    ensures stored { result ≡ stored_by shapes.now op.now pending.loaded }
    ensures long { length result ≡ bytes_of (shape_at shapes.now (destination_of op.now)) }
{
    let Pending { loaded, work, room } = pending;
    if has_op(command, op, shapes) && (known || same_loads(&command.loaded, &loaded)) {
        return done;
    }
    stored_by(work.op(op), shapes, &work.bytes, room)
}

// Junk, as much as there is room for.
fn filled(pending: Pending, byte: u8) -> Contents
    ensures { result ≡ replicate (length pending.room) byte }
{
    let Pending { room, .. } = pending;
    Contents::own(room.into_filled(byte))
}

// What a begun command stores: what was computed, or junk where it is marked.
fn made(
    junk: Option<u8>,
    op: &Op<u32>,
    shapes: &[Shape],
    pending: Pending,
    known: bool,
    command: &Command,
    done: Contents,
) -> Contents
    requires work { IsWork shapes.now op.now pending.loaded pending.work }
    requires room { pending.room ≡ no_old shapes.now op.now }
    requires known { known ≡ true → command.now.loaded ≡ pending.loaded }
    requires done { IsResult command.now done }
    ensures junk { IfSome junk (λ byte. result ≡ replicate (length pending.room) byte) }
    ensures stored { IfNone junk (result ≡ stored_by shapes.now op.now pending.loaded) }
    ensures long { length result ≡ bytes_of (shape_at shapes.now (destination_of op.now)) }
{
    match junk {
        Some(byte) => filled(pending, byte),
        None => computed(op, shapes, pending, known, command, done),
    }
}

// The agent of the command stores.
fn store(table: &mut Segments, view: &View, node: u32, contents: Contents)
    requires node { node < length view.now.effects }
    requires piece { (store_of view.now node).piece < length view.now.pieces }
    requires agent { agent_of (store_of view.now node).kind < table.old.agents }
    requires few { table.old.agents < 2 ^ 32 }
    requires len { length contents ≡ (piece_range view.now (store_of view.now node).piece).len }
    requires cut { IsCutOut table.old (piece_range view.now (store_of view.now node).piece) }
    requires room { 0 < table.old.stores_left }
    ensures bytes { caches_of table.new ≡ put (agent_of (store_of view.now node).kind) (piece_range view.now (store_of view.now node).piece) contents (caches_of table.old) }
    ensures keeps { Keeps table.old table.new }
    ensures cuts { table.old.cuts_left ≤ table.new.cuts_left }
    ensures stores { table.new.stores_left ≡ table.old.stores_left - 1 }
{
    let access = store_of(view, node);
    let piece = view.piece(access.piece);
    table.put(agent_of(access.kind), piece.memory, piece.offset, contents);
}

impl Device {
    // Whether a command that is begun here loaded what it loaded here, since it is of the same sound program. It is looked at only
    // where the loads are longer than the program.
    fn knows(&self, command: &Command, program: &Arc<ValidProgram, Global>) -> bool
        requires begun { is_begun ((state_of self.now).phase command.now.node) ≡ true }
        requires loads { LoadsIn (arc_value program.now) command.now.node command.now.loaded }
        ensures { result ≡ true → command.now.loaded ≡ (state_of self.now).loaded command.now.node }
    {
        device_laws();
        if !self.sound {
            return false;
        }
        if !are_more(&command.loaded, self.weight) {
            return false;
        }
        same_program(&self.program, program)
    }

    /// The event End: a begun command stores. What it stores is of what it loaded here, whatever `done` carries; where that is of
    /// another operation or other bytes, it is computed anew, in memory that `begin` took.
    pub fn end(&mut self, done: Finished) -> Landed
        ensures landed { MatchLanded result (is_begun ((state_of self.old).phase done.node) ≡ true) (is_begun ((state_of self.old).phase done.node) ≡ false) }
        ensures event { MatchLanded result (self.new ≡ did self.old (events.End done.node)) (self.new ≡ self.old) }
    {
        self.take_back(done.threads());
        self.end_alone(done)
    }

    // Threads that a command is done with.
    fn take_back(&mut self, threads: usize)
        ensures { self.new ≡ self.old }
    {
        self.helpers.give_back(threads);
    }

    // The same of a command whose threads were given back.
    fn end_alone(&mut self, done: Finished) -> Landed
        ensures landed { MatchLanded result (is_begun ((state_of self.old).phase done.node) ≡ true) (is_begun ((state_of self.old).phase done.node) ≡ false) }
        ensures event { MatchLanded result (self.new ≡ did self.old (events.End done.node)) (self.new ≡ self.old) }
    {
        event_laws();
        let (command, contents, program) = done.into_parts();
        let node = command.node;
        if !self.control.is_begun(node) {
            return Landed::NotBegun;
        }
        let known = self.knows(&command, &program);
        let Some(pending) = take_pending(&mut self.pending, node) else {
            unreachable!();
        };
        let junk = junk_if(self.control.is_marked(node), self.fill);
        let op = op_of(&self.program, node);
        let stored = made(junk, op, &self.shapes, pending, known, &command, contents);
        store(&mut self.table, self.control.view(), node, stored);
        self.control.end(node);
        self.history.push_reserved(Event::End { node });
        Landed::Done
    }
}
