//! Who holds a device, for one event at a time.

ghost use Rattle.std.specs.Prelude.{◌≡◌, IfOk, OnErr, Option, Some, None};
ghost use Rattle.device_workers.specs.Holds.{Both, StepsTo, LandsTo, TendsTo};
ghost use Rattle.device_workers.specs.Parts.{CountsStep, CountsEnd, tender_part, Owes, Pays, IfTold};

use crate::held::{Held, Task, TenderShares, WorkerShares};
use crate::step::{WorkerStep, take_step};
use crate::tending::tend_once;
use base::{CacheMove, NoMemory};
use device::{Device, Finished, Landed};
use std::alloc::Global;
use std::sync::{Condvar, Mutex, Wait};

/// A worker's hold of a device. Each call is one hold. A holder that tells which device it has is told what each hold does to it; one
/// that tells what it counts counts each hold.
pub trait Holder {
    ghost use Rattle.device_model.specs.Devices.{Device};
    ghost use Rattle.device_workers.specs.Parts.{WorkerPart};

    ghost told: { Self → Option Device };

    ghost part: { Self → Option WorkerPart };

    /// A hold of the worker of a queue. Where no node is ready and not all are done, one on a shared device waits in the same hold.
    fn step(&mut self, alloc: Global, own_queue: u32) -> Result<WorkerStep, NoMemory>
        ensures ok { IfOk result (StepsTo (told self.old) (told self.new) own_queue) }
        ensures counts { IfOk result (λ step. Both (part self.old) (part self.new) (CountsStep step)) }
        ensures err { OnErr result (told self.new ≡ told self.old) }
        ensures still { OnErr result (part self.new ≡ part self.old) };

    /// A hold in which a command ends. It calls nobody: the worker takes its next step at once, and calls others then where it has to.
    fn land(&mut self, done: Finished) -> Landed
        ensures lands { LandsTo (told self.old) (told self.new) done.node }
        ensures counts { Both (part self.old) (part self.new) (CountsEnd result) };
}

/// A tender's hold of a device. Each call is one hold. One that tells what it owes makes its moves in their order.
pub trait Mover {
    ghost use Rattle.device_model.specs.Devices.{Device};
    ghost use Rattle.device_workers.specs.Parts.{TenderPart};

    ghost told: { Self → Option Device };

    ghost part: { Self → Option TenderPart };

    /// It makes a cache move where the device has that agent and range and a move is left, and tells whether it did.
    fn tend(&mut self, cache_move: CacheMove) -> bool
        requires owed { IfTold (part self.old) (Owes cache_move) }
        ensures tends { TendsTo (told self.old) (told self.new) cache_move result }
        ensures pays { Both (part self.old) (part self.new) (Pays cache_move result) };
}

/// A worker of a device under a lock that others share, with a bell at which workers wait. It tells what it counts.
///
/// A worker that made an event takes the next step itself, so it rings only where it cannot: for one other where it goes to compute,
/// since more may be ready, and for all where every node is done or it found no memory.
#[derive(Drop)]
pub(crate) struct Shared<'a, R: Wait, T: Task> {
    pub rt: &'a R,
    pub held: &'a Mutex<Held<T>>,
    pub bell: &'a Condvar,
    pub shares: WorkerShares<T>,
}

impl<'a, R: Wait, T: Task> Holder for Shared<'a, R, T> {
    ghost told = { λ _. None };

    ghost part = { λ s. Some (record { parts = s.shares.events.parts; events = s.shares.events.amount; ends = s.shares.ends.amount }) };

    fn step(&mut self, alloc: Global, own_queue: u32) -> Result<WorkerStep, NoMemory> {
        let mut held = self.held.lock(self.rt);
        let step = held.step(alloc, own_queue, &mut self.shares);
        match &step {
            Ok(WorkerStep::Stepped) => {}
            Ok(WorkerStep::Compute(_)) => {
                drop(held);
                self.bell.notify_one();
            }
            Ok(WorkerStep::Wait) => drop(self.bell.wait(self.rt, held)),
            Ok(WorkerStep::Complete) | Err(_) => self.bell.notify_all(),
        }
        step
    }

    fn land(&mut self, done: Finished) -> Landed {
        self.held.lock(self.rt).land(done, &mut self.shares)
    }
}

/// The tender beside the workers. It tells what it owes.
#[derive(Drop)]
pub(crate) struct SharedMover<'a, R: Wait, T: Task> {
    pub rt: &'a R,
    pub held: &'a Mutex<Held<T>>,
    pub shares: TenderShares<T>,
}

impl<'a, R: Wait, T: Task> Mover for SharedMover<'a, R, T> {
    ghost told = { λ _. None };

    ghost part = { λ s. Some (tender_part T.program T.tend s.shares.events.parts s.shares.events.amount s.shares.moves.amount) };

    fn tend(&mut self, cache_move: CacheMove) -> bool {
        self.held.lock(self.rt).tend(cache_move, &mut self.shares)
    }
}

/// A device of one's own. It tells the device.
#[derive(Drop)]
pub struct Alone {
    pub device: Device,
}

impl Holder for Alone {
    ghost told = { λ alone. Some alone.device };

    ghost part = { λ _. None };

    fn step(&mut self, alloc: Global, own_queue: u32) -> Result<WorkerStep, NoMemory> {
        take_step(&mut self.device, alloc, own_queue)
    }

    fn land(&mut self, done: Finished) -> Landed {
        self.device.end(done)
    }
}

impl Mover for Alone {
    ghost told = { λ alone. Some alone.device };

    ghost part = { λ _. None };

    fn tend(&mut self, cache_move: CacheMove) -> bool {
        tend_once(&mut self.device, cache_move)
    }
}
