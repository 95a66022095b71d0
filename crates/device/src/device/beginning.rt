//! A command begins.

ghost use Rattle.std.specs.Prelude.{◌≡◌, ◌<◌, ◌^◌, [], ◌∷◌, length, map, true, if◌then◌else◌, IfOk, OnErr, replicate};
ghost use Rattle.std.specs.Arc.{arc_value};
ghost use Rattle.base.specs.Shapes.{bytes_of};
ghost use Rattle.base.specs.declared.event.Event.TheVariants as events;
ghost use Rattle.device_cache.specs.Effects.{load};
ghost use Rattle.device_cache.specs.Lines.{range};
ghost use Rattle.device_cache.specs.Tables.{InMemory, caches_of};
ghost use Rattle.device.specs.Carried.{Carries};
ghost use Rattle.device.specs.Internal.Loads.{store_size, IsWork};
ghost use Rattle.device.specs.Internal.Takes.{loads_in, AreInputs, IsCommand, IsReserved};
ghost use Rattle.device_model.specs.Devices.{state_of, view_in, did, is_ready, LoadsApart};
ghost use Rattle.device_model.specs.Outputs.{no_old};
ghost use Rattle.device_model.specs.Ready.{is_command, kind_at};
ghost use Rattle.device_model.specs.Steps.{loaded_by};
ghost use Rattle.check_access.specs.ValidView.{Has};
ghost use Rattle.check_access.specs.Views.{loads_of};

use super::Device;
use crate::agents::{agent_of, store_of};
use crate::job::{Command, Job};
use crate::nodes::op_of;
use crate::pending::{Pending, put_pending};
use crate::room::Room;
use crate::work::Work;
use base::{Event, List, NoMemory};
use bytes::BytesMut;
use check_access::Access;
use device_cache::{Contents, Segments};
use device_model::event_laws;
use program::{Piece, ValidProgram};
use std::alloc::Global;
use std::sync::Arc;

// What a Begin takes memory for: the job and what the device holds.
#[derive(Drop)]
struct Reserved {
    command: Command,
    work: Work,
    room: Room,
    program: Arc<ValidProgram, Global>,
    pending: Pending,
}

// What a command loads, and what is computed of it.
#[derive(Drop)]
struct Inputs {
    loaded: List<Contents>,
    work: Work,
}

// The same once more; bytes in memory are shared.
fn copies(alloc: Global, loaded: &[Contents]) -> Result<List<Contents>, NoMemory>
    ensures { IfOk result (λ copies. copies ≡ loaded.now) }
{
    let mut copies = List::new(alloc);
    for contents in loaded {
        copies.push(contents.copy(alloc)?)?;
    }
    Ok(copies)
}

// The bytes that an agent sees of a piece, or else junk of one byte.
fn sight(
    alloc: Global,
    undefined: bool,
    byte: u8,
    table: &Segments,
    agent: u32,
    from: Piece,
) -> Result<Contents, NoMemory>
    requires small { bytes_of from.shape < 2 ^ 32 }
    requires agent { agent < table.now.agents }
    requires within { InMemory table.now from.memory from.offset (bytes_of from.shape) }
    ensures { IfOk result (λ bytes. bytes ≡ (if undefined then replicate (bytes_of from.shape) byte else load agent (range from.memory from.offset (bytes_of from.shape)) (caches_of table.now))) }
{
    let len = from.shape.bytes() as u32;
    if undefined {
        return Ok(Contents::filled(byte, len));
    }
    let contents = table.seen(alloc, agent, from.memory, from.offset, len)?;
    Ok(contents)
}

impl Device {
    /// The event Begin: a command loads. It takes all memory that `compute` and `end` need; without it nothing has changed.
    pub fn begin(&mut self, alloc: Global, node: u32) -> Result<Job, NoMemory>
        requires command { is_command (kind_at (view_in self.old) node) ≡ true }
        requires ready { is_ready self.old node ≡ true }
        ensures event { IfOk result (λ job. self.new ≡ did self.old (events.Begin node)) }
        ensures job { IfOk result (Carries self.new node) }
        ensures apart { IfOk result (λ job. LoadsApart self.new node job.loaded) }
        ensures err { OnErr result (self.new ≡ self.old) }
    {
        let job = self.begin_alone(alloc, node)?;
        Ok(self.helped(job))
    }

    // The job with the threads that it takes.
    fn helped(&mut self, job: Job) -> Job
        ensures job { result ≡ job }
        ensures same { self.new ≡ self.old }
    {
        job.helped(&mut self.helpers)
    }

    // The same of a job that starts no thread.
    fn begin_alone(&mut self, alloc: Global, node: u32) -> Result<Job, NoMemory>
        requires command { is_command (kind_at (view_in self.old) node) ≡ true }
        requires ready { is_ready self.old node ≡ true }
        ensures event { IfOk result (λ job. self.new ≡ did self.old (events.Begin node)) }
        ensures job { IfOk result (Carries self.new node) }
        ensures apart { IfOk result (λ job. LoadsApart self.new node job.loaded) }
        ensures err { OnErr result (self.new ≡ self.old) }
    {
        self.share()?;
        let inputs = self.inputs(alloc, node)?;
        let spare = self.spare(node, &inputs.work);
        self.begun(alloc, node, inputs, spare)
    }

    // What was stored can be loaded without a copy from now on.
    fn share(&mut self) -> Result<(), NoMemory>
        ensures { self.new ≡ self.old }
    {
        self.table.share()?;
        Ok(())
    }

    // Memory that the table needs no more, for as many bytes as the command stores; none where it stores a number alone.
    fn spare(&mut self, node: u32, work: &Work) -> Option<BytesMut>
        requires command { is_command (kind_at (view_in self.old) node) ≡ true }
        requires node { node < length (view_in self.old).nodes }
        ensures { self.new ≡ self.old }
    {
        if self.clears(node, work) {
            return None;
        }
        let len = self.store_len(node);
        self.table.take_spare(len as usize)
    }

    // Whether what is run is a clear.
    fn clears(&self, node: u32, work: &Work) -> bool
        requires command { is_command (kind_at (view_in self.now) node) ≡ true }
        requires node { node < length (view_in self.now).nodes }
    {
        let op = op_of(&self.program, node);
        work.is_clear(op)
    }

    // Begins a command with what it loads; memory that is to be used again is handed in.
    fn begun(
        &mut self,
        alloc: Global,
        node: u32,
        inputs: Inputs,
        spare: Option<BytesMut>,
    ) -> Result<Job, NoMemory>
        requires command { is_command (kind_at (view_in self.old) node) ≡ true }
        requires ready { is_ready self.old node ≡ true }
        requires inputs { AreInputs self.old node inputs.loaded inputs.work }
        ensures event { IfOk result (λ job. self.new ≡ did self.old (events.Begin node)) }
        ensures job { IfOk result (Carries self.new node) }
        ensures apart { IfOk result (λ job. LoadsApart self.new node job.loaded) }
        ensures err { OnErr result (self.new ≡ self.old) }
    {
        let Reserved {
            command,
            work,
            room,
            program,
            pending,
        } = self.reserve(alloc, node, inputs, spare)?;
        self.keep(node, pending);
        Ok(Job::new(command, work, room, program))
    }

    // The event itself, once there is what the device holds of the command.
    fn keep(&mut self, node: u32, pending: Pending)
        requires command { is_command (kind_at (view_in self.old) node) ≡ true }
        requires ready { is_ready self.old node ≡ true }
        requires pending { IsReserved self.old node pending }
        ensures event { self.new ≡ did self.old (events.Begin node) }
        ensures loaded { (state_of self.new).loaded node ≡ pending.loaded }
        ensures apart { LoadsApart self.new node pending.loaded }
    {
        event_laws();
        self.control.begin(node);
        put_pending(&mut self.pending, node, pending);
        self.history.push_reserved(Event::Begin { node });
    }

    // All that a Begin takes memory for.
    fn reserve(
        &self,
        alloc: Global,
        node: u32,
        inputs: Inputs,
        spare: Option<BytesMut>,
    ) -> Result<Reserved, NoMemory>
        requires command { is_command (kind_at (view_in self.now) node) ≡ true }
        requires node { node < length (view_in self.now).nodes }
        requires inputs { AreInputs self.now node inputs.loaded inputs.work }
        ensures pending { IfOk result (λ t. IsReserved self.now node t.pending) }
        ensures command { IfOk result (λ t. IsCommand self.now.program node t.pending.loaded t.command) }
        ensures work { IfOk result (λ t. IsWork t.command.shapes t.command.op t.command.loaded t.work) }
        ensures room { IfOk result (λ t. t.room ≡ no_old t.command.shapes t.command.op) }
        ensures program { IfOk result (λ t. arc_value t.program ≡ self.now.program) }
    {
        let room = self.room(alloc, node, spare)?;
        let pending = self.pending_for(alloc, node, inputs)?;
        let command = self.command(alloc, node, &pending.loaded)?;
        let work = pending.work.copy(alloc)?;
        let program = Arc::try_clone(&self.program)?;
        Ok(Reserved {
            command,
            work,
            room,
            program,
            pending,
        })
    }

    // What the command loads, and what is to be computed of it.
    fn inputs(&self, alloc: Global, node: u32) -> Result<Inputs, NoMemory>
        requires command { is_command (kind_at (view_in self.now) node) ≡ true }
        requires node { node < length (view_in self.now).nodes }
        ensures { IfOk result (λ inputs. AreInputs self.now node inputs.loaded inputs.work) }
    {
        let loaded = self.loads(alloc, node)?;
        let work = self.work(alloc, node, &loaded)?;
        Ok(Inputs { loaded, work })
    }

    fn work(&self, alloc: Global, node: u32, loaded: &[Contents]) -> Result<Work, NoMemory>
        requires command { is_command (kind_at (view_in self.now) node) ≡ true }
        requires node { node < length (view_in self.now).nodes }
        requires loaded { loaded.now ≡ loads_in self.now node }
        ensures { IfOk result (AreInputs self.now node loaded.now) }
    {
        let op = op_of(&self.program, node);
        let work = Work::new(alloc, op, &self.shapes, loaded)?;
        Ok(work)
    }

    fn pending_for(&self, alloc: Global, node: u32, inputs: Inputs) -> Result<Pending, NoMemory>
        requires command { is_command (kind_at (view_in self.now) node) ≡ true }
        requires node { node < length (view_in self.now).nodes }
        requires inputs { AreInputs self.now node inputs.loaded inputs.work }
        ensures { IfOk result (IsReserved self.now node) }
    {
        let Inputs { loaded, work } = inputs;
        let room = self.room(alloc, node, None)?;
        Ok(Pending { loaded, work, room })
    }

    // The command with what it loads.
    fn command(&self, alloc: Global, node: u32, loaded: &[Contents]) -> Result<Command, NoMemory>
        requires command { is_command (kind_at (view_in self.now) node) ≡ true }
        requires node { node < length (view_in self.now).nodes }
        requires loaded { loaded.now ≡ loads_in self.now node }
        ensures command { IfOk result (IsCommand self.now.program node loaded.now) }
        ensures room { IfOk result (λ command. replicate (store_size (view_in self.now) node) 0 ≡ no_old command.shapes command.op) }
    {
        let op = op_of(&self.program, node).copy(alloc)?;
        let shapes = self.shapes.copy(alloc)?;
        let loaded = copies(alloc, loaded)?;
        Ok(Command {
            node,
            op,
            shapes,
            loaded,
        })
    }

    // How many bytes the command stores.
    fn store_len(&self, node: u32) -> u32
        requires command { is_command (kind_at (view_in self.now) node) ≡ true }
        requires node { node < length (view_in self.now).nodes }
        ensures { result ≡ store_size (view_in self.now) node }
    {
        let view = self.control.view();
        let piece = view.piece(store_of(view, node).piece);
        piece.shape.bytes() as u32
    }

    // Room for as many bytes.
    fn room(&self, alloc: Global, node: u32, spare: Option<BytesMut>) -> Result<Room, NoMemory>
        requires command { is_command (kind_at (view_in self.now) node) ≡ true }
        requires node { node < length (view_in self.now).nodes }
        ensures { IfOk result (λ room. room ≡ replicate (store_size (view_in self.now) node) 0) }
    {
        Room::new(alloc, self.store_len(node), spare)
    }

    // What the command loads, load by load.
    fn loads(&self, alloc: Global, node: u32) -> Result<List<Contents>, NoMemory>
        requires command { is_command (kind_at (view_in self.now) node) ≡ true }
        requires node { node < length (view_in self.now).nodes }
        ensures { IfOk result (λ loaded. loaded ≡ map (loaded_by (view_in self.now) (state_of self.now) node (self.now.fill ∷ [])) (loads_of (view_in self.now) node)) }
    {
        let mut loaded = List::new(alloc);
        for access in self.control.view().effect_at(node).accesses.as_slice() {
            if access.kind.loads() {
                loaded.push(self.load(alloc, node, *access)?)?;
            }
        }
        Ok(loaded)
    }

    // The bytes that the agent sees, or junk.
    fn load(&self, alloc: Global, node: u32, access: Access) -> Result<Contents, NoMemory>
        requires command { is_command (kind_at (view_in self.now) node) ≡ true }
        requires node { node < length (view_in self.now).nodes }
        requires has { Has (view_in self.now) node access }
        ensures { IfOk result (λ bytes. bytes ≡ loaded_by (view_in self.now) (state_of self.now) node (self.now.fill ∷ []) access) }
    {
        let piece = self.control.view().piece(access.piece);
        let undefined = self.control.loads_undefined(node, access);
        let agent = agent_of(access.kind);
        let contents = sight(alloc, undefined, self.fill, &self.table, agent, piece)?;
        Ok(contents)
    }
}
