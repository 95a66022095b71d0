//! A running device.

mod beginning;
mod ending;
mod moving;
mod reading;
mod syncs;

ghost use Rattle.std.specs.Prelude.{◌≡◌, ◌↔◌, ◌<◌, length, true, false, IsTrue, IfSome, IfNone, IfOk};
ghost use Rattle.std.specs.Arc.{arc_value};
ghost use Rattle.check_program.specs.Sound.{IsSound};
ghost use Rattle.device_model.specs.Coming.{AllCame};
ghost use Rattle.device_model.specs.Devices.{fresh, view_in, state_of, is_ready, IsNext, NoneReady, NeverStands, IsComplete, ReadsApart};
ghost use Rattle.device_model.specs.Ready.{kind_at, read_node};
ghost use Rattle.device_model.specs.States.{is_done};

use crate::buffer::Buffer;
use crate::helpers::Helpers;
use crate::nodes::read_node;
use crate::opening::{Lists, Stored, lists_of, stored_of};
use crate::pending::Pending;
use crate::weight::weight_of;
use base::{Event, List, NoMemory, Shape};
use check_order::Kind;
use check_program::Checked;
use device_cache::Segments;
use device_model::{device_laws, event_laws};
use device_nodes::Control;
use program::ValidProgram;
use program_eq::Same;
use std::alloc::Global;
use std::marker::Model;
use std::sync::Arc;

/// A device that runs a program. Its state is what the events of its history make of the opening bytes: those of the imports,
/// and elsewhere the fill byte, which is also all junk.
#[derive(Drop)]
pub struct Device {
    program: Arc<ValidProgram, Global>,
    // Whether it is known to be sound.
    sound: bool,
    // About as many bytes as a comparison of the program reads.
    weight: usize,
    shapes: List<Shape>,
    fill: u8,
    moves: u32,
    history: Vec<Event>,
    control: Control,
    table: Segments,
    // By the number of the node.
    pending: Vec<Option<Pending>>,
    // By the number of the read-back.
    reads: Vec<Buffer>,
    helpers: Helpers,
}

impl Model for Device {
    ghost use Rattle.device_model.specs.Devices.{Device};
    ghost use Rattle.device.specs.Internal.Kept.{device_in, IsKept};

    ghost Value = { Device };

    ghost view = { device_in };

    ghost invariant = { IsKept };
}

impl Device {
    /// A device that has done nothing, with room for so many cache moves. It lends no threads (`lend_threads`). Only the
    /// calls that make a device, and `begin`, take memory.
    pub fn new(alloc: Global, program: &Checked, fill: u8, moves: u32) -> Result<Device, NoMemory>
        ensures fresh { IfOk result (λ device. device ≡ fresh program.now.program fill moves) }
        ensures sound { IfOk result (λ device. IsSound device.program) }
    {
        Device::with_places(alloc, program, fill, moves, &[])
    }

    /// The same, quicker where so many moves begin and end at these places, each a memory and a byte of it. They are best in
    /// rising order.
    pub fn with_places(
        alloc: Global,
        program: &Checked,
        fill: u8,
        moves: u32,
        places: &[(u32, u32)],
    ) -> Result<Device, NoMemory>
        ensures fresh { IfOk result (λ device. device ≡ fresh program.now.program fill moves) }
        ensures sound { IfOk result (λ device. IsSound device.program) }
    {
        let shared = Arc::try_clone(program.shaped())?;
        Device::opened(alloc, shared, true, fill, moves, places)
    }

    /// The same of a program that may be unsound.
    pub fn unchecked(
        alloc: Global,
        program: Arc<ValidProgram, Global>,
        fill: u8,
        moves: u32,
    ) -> Result<Device, NoMemory>
        ensures { IfOk result (λ device. device ≡ fresh (arc_value program) fill moves) }
    {
        Device::opened(alloc, program, false, fill, moves, &[])
    }

    // The same of a program that may be said to be sound.
    fn opened(
        alloc: Global,
        program: Arc<ValidProgram, Global>,
        sound: bool,
        fill: u8,
        moves: u32,
        places: &[(u32, u32)],
    ) -> Result<Device, NoMemory>
        requires { sound ≡ true → IsSound (arc_value program) }
        ensures { IfOk result (λ device. device ≡ fresh (arc_value program) fill moves) }
    {
        event_laws();
        let plain = program.program();
        let control = Control::new(alloc, &program)?;
        let count = control.view().count();
        let stored = stored_of(alloc, plain, fill, moves, count as u32, places)?;
        let events = 2 * count + moves as usize;
        let lists = lists_of(alloc, control.view(), &plain.readbacks, count, events)?;
        let Stored { table, shapes } = stored;
        let Lists {
            pending,
            reads,
            history,
        } = lists;
        let helpers = Helpers::new(0);
        let weight = weight_of(&program.program().memories, count);
        Ok(Device {
            program,
            sound,
            weight,
            shapes,
            fill,
            moves,
            history,
            control,
            table,
            pending,
            reads,
            helpers,
        })
    }

    /// Commands that are on their way take no more than so many threads, all together: each one for its caller, and the rest for
    /// those that it starts. One that finds none left is computed by its caller alone, who is then one more. To be called before the
    /// first `begin`; until it is called no command starts a thread.
    pub fn lend_threads(&mut self, threads: usize)
        ensures { self.new ≡ self.old }
    {
        self.helpers = Helpers::new(threads);
    }

    /// The number of nodes.
    pub fn node_count(&self) -> u32
        ensures { result ≡ length (view_in self.now).nodes }
    {
        self.control.view().count() as u32
    }

    /// What the node is: a command, a barrier, a wait, a signal or a host read.
    pub fn kind(&self, node: u32) -> Kind
        requires { node < length (view_in self.now).nodes }
        ensures { result ≡ kind_at (view_in self.now) node }
    {
        self.control.view().node(node).kind
    }

    /// Whether the node is idle, and all that it waits for is done.
    pub fn ready(&self, node: u32) -> bool
        requires { node < length (view_in self.now).nodes }
        ensures { result ≡ is_ready self.now node }
    {
        self.control.is_ready(node)
    }

    /// The least ready node of a queue; host reads are of the number after the last queue.
    pub fn pick(&self, queue: u32) -> Option<u32>
        ensures some { IfSome result (IsNext self.now queue) }
        ensures none { IfNone result (NoneReady self.now queue) }
        ensures stands { NeverStands self.now }
    {
        device_laws();
        self.control.pick(queue)
    }

    /// Whether each node is done.
    pub fn complete(&self) -> bool
        ensures { IsTrue result ↔ IsComplete self.now }
    {
        self.control.complete()
    }

    /// How many more cache moves there is room for.
    pub fn moves_left(&self) -> u32
        ensures { result ≡ self.now.moves }
    {
        self.moves
    }

    /// The program that it runs.
    pub fn program(&self) -> &Arc<ValidProgram, Global>
        ensures { arc_value result.now ≡ self.now.program }
    {
        &self.program
    }

    /// What has happened. Each event could come in its turn.
    pub fn history(&self) -> &[Event]
        ensures history { result.now ≡ self.now.history }
        ensures came { AllCame self.now }
    {
        &self.history
    }

    /// Whether it runs this program, and was opened with this byte.
    pub fn belongs(&self, program: &Checked, fill: u8) -> bool
        ensures { IsTrue result ↔ ((self.now.program ≡ program.now.program) × (self.now.fill ≡ fill)) }
    {
        self.fill == fill && self.program.program().same(program.shaped().program())
    }

    /// The node of a read-back.
    pub fn read_node(&self, k: u32) -> u32
        requires { k < length self.now.program.readbacks }
        ensures node { result ≡ read_node self.now.program k }
        ensures within { result < length (view_in self.now).nodes }
    {
        read_node(&self.program, k)
    }

    /// The bytes of a read-back, once the host has read them.
    pub fn readback(&self, k: u32) -> Option<&[u8]>
        requires { k < length self.now.program.readbacks }
        ensures some { IfSome result (λ bytes. (is_done ((state_of self.now).phase (read_node self.now.program k)) ≡ true) × (bytes.now ≡ (state_of self.now).host (read_node self.now.program k))) }
        ensures none { IfNone result (is_done ((state_of self.now).phase (read_node self.now.program k)) ≡ false) }
        ensures apart { IfSome result (λ bytes. ReadsApart self.now k bytes.now) }
    {
        device_laws();
        if self.control.is_done(read_node(&self.program, k)) {
            Some(self.reads[k as usize].as_slice())
        } else {
            None
        }
    }
}
