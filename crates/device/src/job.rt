//! A begun command on its way.

ghost use Rattle.std.specs.Prelude.{◌≡◌};
ghost use Rattle.std.specs.Arc.{arc_value};
ghost use Rattle.device.specs.Internal.Loads.{IsWork, LoadsIn};
ghost use Rattle.device.specs.Internal.Results.{IsResult};
ghost use Rattle.device_model.specs.Outputs.{no_old, stored_by};

use crate::helpers::Helpers;
use crate::room::Room;
use crate::running::stored_fast;
use crate::work::Work;
use base::{List, Op, Shape};
use device_cache::Contents;
use program::ValidProgram;
use std::alloc::Global;
use std::marker::Model;
use std::sync::Arc;
use std::thread::Threads;

/// A begun command: its node, its operation, the shapes of all pieces, and the bytes that it loaded, load by load.
#[derive(Drop)]
pub struct Command {
    pub node: u32,
    pub op: Op<u32>,
    pub shapes: List<Shape>,
    pub loaded: List<Contents>,
}

/// A begun command that is to be computed. It has the memory that this takes, and cannot be let go.
pub struct Job {
    command: Command,
    work: Work,
    room: Room,
    // Of the device that began it.
    program: Arc<ValidProgram, Global>,
    // How many it took: one for its caller, and those that it may start. None where none was left.
    threads: usize,
}

impl Model for Job {
    ghost use Rattle.device.specs.declared.job.Command.{Command};
    ghost use Rattle.device.specs.Internal.Jobs.{command_of, IsJob};

    ghost Value = { Command };

    ghost view = { command_of };

    ghost invariant = { IsJob };
}

/// A command that was computed, with the bytes that it stores. It is of the device that began it, and cannot be let go.
pub struct Finished {
    command: Command,
    stored: Contents,
    program: Arc<ValidProgram, Global>,
    threads: usize,
}

impl Model for Finished {
    ghost use Rattle.device.specs.declared.job.Command.{Command};
    ghost use Rattle.device.specs.Internal.Results.{command_of, IsFinished};

    ghost Value = { Command };

    ghost view = { command_of };

    ghost invariant = { IsFinished };
}

/// How an End went.
#[derive(Clone, Copy, Debug, PartialEq, Eq)]
pub enum Landed {
    Done,
    /// The node is not begun in this device, and nothing has changed.
    NotBegun,
}

impl Job {
    pub(crate) fn new(
        command: Command,
        work: Work,
        room: Room,
        program: Arc<ValidProgram, Global>,
    ) -> Job
        requires work { IsWork command.shapes command.op command.loaded work }
        requires loads { LoadsIn (arc_value program) command.node command.loaded }
        requires room { room ≡ no_old command.shapes command.op }
        ensures { result ≡ command }
    {
        Job {
            command,
            work,
            room,
            program,
            threads: 0,
        }
    }

    /// The same, with threads that it takes of these.
    pub(crate) fn helped(self, helpers: &mut Helpers) -> Job
        ensures { result ≡ self }
    {
        let Job {
            command,
            work,
            room,
            program,
            threads: _,
        } = self;
        let threads = helpers.take(room.helpers(work.op(&command.op)));
        Job {
            command,
            work,
            room,
            program,
            threads,
        }
    }

    /// What is to be computed.
    pub fn command(&self) -> &Command
        ensures { result.now ≡ self.now }
    {
        &self.command
    }

    /// Runs the operation, or a simpler one that leaves the same, by lanes and by bands, in as many threads as the device had left for it.
    /// It has no part in the device.
    pub fn compute<R: Threads + Sync>(self, rt: &R) -> Finished
        ensures { result ≡ self }
    {
        let Job {
            command,
            work,
            room,
            program,
            threads,
        } = self;
        let stored = stored_fast(
            rt,
            threads.saturating_sub(1),
            work.op(&command.op),
            &command.shapes,
            &work.bytes,
            room,
        );
        Finished {
            command,
            stored,
            program,
            threads,
        }
    }
}

impl Finished {
    /// What was computed.
    pub fn command(&self) -> &Command
        ensures { result.now ≡ self.now }
    {
        &self.command
    }

    /// The bytes that the operation stores.
    pub fn stored(&self) -> &Contents
        ensures { result.now ≡ stored_by self.now.shapes self.now.op self.now.loaded }
    {
        &self.stored
    }

    /// The threads that were taken for it, which others may take now.
    pub(crate) fn threads(&self) -> usize {
        self.threads
    }

    /// The command, its bytes, and the program of the device that began it.
    pub(crate) fn into_parts(self) -> (Command, Contents, Arc<ValidProgram, Global>)
        ensures command { result.0 ≡ self }
        ensures bytes { IsResult self result.1 }
        ensures loads { LoadsIn (arc_value result.2) self.node self.loaded }
    {
        let Finished {
            command,
            stored,
            program,
            threads: _,
        } = self;
        (command, stored, program)
    }
}
