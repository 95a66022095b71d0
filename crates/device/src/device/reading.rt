//! The host reads.

ghost use Rattle.std.specs.Prelude.{◌≡◌, ◌<◌, [], length, get_or, slice_set, true};
ghost use Rattle.base.specs.Shapes.{bytes_of};
ghost use Rattle.base.specs.declared.event.Event.TheVariants as events;
ghost use Rattle.device_cache.specs.Lines.{range};
ghost use Rattle.device_cache.specs.Tables.{InMemory, caches_of};
ghost use Rattle.device.specs.Internal.Reads.{read_into};
ghost use Rattle.device_model.specs.Devices.{did, is_ready};
ghost use Rattle.device_model.specs.Ready.{read_node};

use super::Device;
use crate::buffer::{Buffer, junk_if};
use crate::nodes::read_node;
use base::Event;
use check_access::{Access, AccessKind, Agent};
use device_cache::Segments;
use device_model::event_laws;
use program::Piece;

// The bytes of main at a piece, or junk.
fn read_piece(reads: &mut Vec<Buffer>, k: u32, junk: Option<u8>, table: &Segments, from: Piece)
    requires there { k < length reads.old.items }
    requires room { length (get_or reads.old.items k []) ≡ bytes_of from.shape }
    requires within { InMemory table.now from.memory from.offset (bytes_of from.shape) }
    ensures { reads.new.items ≡ slice_set reads.old.items k (read_into junk (range from.memory from.offset (bytes_of from.shape)) (caches_of table.now)) }
{
    let room = &mut reads[k as usize];
    match junk {
        Some(byte) => room.fill(byte),
        None => room.read_main(table, from.memory, from.offset),
    }
}

impl Device {
    /// The event Host of a read-back.
    pub fn host(&mut self, readback: u32)
        requires there { readback < length self.old.program.readbacks }
        requires ready { is_ready self.old (read_node self.old.program readback) ≡ true }
        ensures { self.new ≡ did self.old (events.Host (read_node self.old.program readback)) }
    {
        event_laws();
        let node = read_node(&self.program, readback);
        let piece = self.program.program().readbacks[readback as usize];
        let access = Access {
            piece,
            kind: AccessKind::Load {
                agent: Agent::Host,
                layout: None,
            },
        };
        let junk = junk_if(self.control.loads_undefined(node, access), self.fill);
        let from = self.control.view().piece(piece);
        read_piece(&mut self.reads, readback, junk, &self.table, from);
        self.control.host(node);
        self.history.push_reserved(Event::Host { node });
    }
}
