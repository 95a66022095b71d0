//! What the parts of a run share: a device, with books of what was done to it.

ghost use Rattle.std.specs.Prelude.{◌≡◌, ◌≤◌, ◌<◌, ◌+◌, ℕ, [], if◌then◌else◌, length, take, drop, Option, None, OnErr, IfOk};
ghost use Rattle.device_drive.specs.Tended.{tended_moves};
ghost use Rattle.device_model.specs.Coming.{AllCame};
ghost use Rattle.device_model.specs.Devices.{fresh, IsComplete};
ghost use Rattle.device_model.specs.Histories.{moves_in};
ghost use Rattle.device_workers.specs.Parts.{events_of, ends_of, events_of_end, room_of, tender_part, Owes, Pays};

use crate::step::{WorkerStep, take_step};
use crate::tending::tend_once;
use base::{CacheMove, NoMemory};
use device::{Device, Finished, Landed};
use std::alloc::Global;
use std::marker::{Brand, PhantomData};
use std::sync::ledger::{Book, Ledger, Share};

/// What a run of workers is of: a program, a tender's seed or none, and the ledgers of its parts.
pub(crate) trait Task {
    ghost use Rattle.std.specs.Prelude.{ℕ, Option};
    ghost use Rattle.program.specs.declared.program.Program.{Program};

    ghost program: { Program };

    ghost tend: { Option ℕ };

    /// Into how many parts the ledgers of workers are cut.
    ghost parts: { ℕ };

    ghost event_ledger: { ℕ };

    ghost end_ledger: { ℕ };

    ghost move_ledger: { ℕ };
}

impl Task for Brand {
    ghost program = { record { memories = []; pieces = []; queues = []; readbacks = [] } };

    ghost tend = { None };

    ghost parts = { 1 };

    ghost event_ledger = { 0 };

    ghost end_ledger = { 0 };

    ghost move_ledger = { 0 };
}

/// Counts events.
pub(crate) struct EventLedger<T: Task> {
    of: PhantomData<T>,
}

impl<T: Task> Ledger for EventLedger<T> {
    ghost name = { T.event_ledger };

    ghost parts = { T.parts };
}

/// Counts how often a worker has found all nodes done.
pub(crate) struct EndLedger<T: Task> {
    of: PhantomData<T>,
}

impl<T: Task> Ledger for EndLedger<T> {
    ghost name = { T.end_ledger };

    ghost parts = { T.parts };
}

/// Counts cache moves. The one tender has all of it.
pub(crate) struct MoveLedger<T: Task> {
    of: PhantomData<T>,
}

impl<T: Task> Ledger for MoveLedger<T> {
    ghost name = { T.move_ledger };

    ghost parts = { 1 };
}

/// A worker's shares.
#[derive(Drop)]
pub(crate) struct WorkerShares<T: Task> {
    pub events: Share<EventLedger<T>>,
    pub ends: Share<EndLedger<T>>,
    ghost some: { (0 < events.parts) × (0 < ends.parts) },
}

/// A tender's shares.
#[derive(Drop)]
pub(crate) struct TenderShares<T: Task> {
    pub events: Share<EventLedger<T>>,
    pub moves: Share<MoveLedger<T>>,
    ghost some: { 0 < events.parts },
    ghost whole: { moves.parts ≡ 1 },
}

/// The device of a run, with the books of all shares.
#[derive(Drop)]
pub(crate) struct Held<T: Task>
where
    EventLedger<T>: Ledger,
    EndLedger<T>: Ledger,
    MoveLedger<T>: Ledger,
{
    device: Device,
    events: Book<EventLedger<T>>,
    ends: Book<EndLedger<T>>,
    moves: Book<MoveLedger<T>>,
    ghost ours: { device.program ≡ T.program },
    ghost zeros: { device.fill ≡ 0 },
    ghost counted: { length device.history ≡ events.total },
    ghost ended: { 0 < ends.total → IsComplete device },
    ghost moved: { moves_in device.history ≡ take moves.total (tended_moves T.program T.tend 256) },
    ghost left: { length (tended_moves T.program T.tend 256) ≤ device.moves + moves.total },
}

// How many events a hold has made.
fn events_of(step: &WorkerStep) -> u64
    ensures { result ≡ events_of step.now }
{
    match step {
        WorkerStep::Compute(_) | WorkerStep::Stepped => 1,
        WorkerStep::Complete | WorkerStep::Wait => 0,
    }
}

// Whether a hold has found all nodes done, as a number.
fn ends_of(step: &WorkerStep) -> u64
    ensures { result ≡ ends_of step.now }
{
    match step {
        WorkerStep::Complete => 1,
        WorkerStep::Compute(_) | WorkerStep::Stepped | WorkerStep::Wait => 0,
    }
}

fn events_of_end(landed: Landed) -> u64
    ensures { result ≡ events_of_end landed }
{
    match landed {
        Landed::Done => 1,
        Landed::NotBegun => 0,
    }
}

fn one_if(is: bool) -> u64
    ensures { result ≡ (if is then 1 else 0) }
{
    is as u64
}

impl<T: Task> WorkerShares<T> {
    /// So many parts of both, with nothing counted.
    pub fn split(&mut self, parts: u64) -> WorkerShares<T>
        requires some { 0 < parts }
        requires less { (parts < self.old.events.parts) × (parts < self.old.ends.parts) }
        ensures events { (result.events.parts ≡ parts) × (self.new.events.parts + parts ≡ self.old.events.parts) }
        ensures ends { (result.ends.parts ≡ parts) × (self.new.ends.parts + parts ≡ self.old.ends.parts) }
    {
        let WorkerShares { events, ends } = self;
        WorkerShares {
            events: events.split_off(parts, 0),
            ends: ends.split_off(parts, 0),
        }
    }

    /// What both have.
    pub fn merge(&mut self, other: WorkerShares<T>)
        ensures parts { self.new.events.parts ≡ self.old.events.parts + other.events.parts }
        ensures ends { self.new.ends.amount ≡ self.old.ends.amount + other.ends.amount }
    {
        let WorkerShares { events, ends } = other;
        self.events.merge(events);
        self.ends.merge(ends);
    }
}

impl<T: Task> Held<T> {
    /// A device that has done nothing, with books that count nothing.
    #[tactic(auto, using(crate::proofs::Paying::few_moves))]
    pub fn new(
        device: Device,
        events: Book<EventLedger<T>>,
        ends: Book<EndLedger<T>>,
        moves: Book<MoveLedger<T>>,
    ) -> Held<T>
        requires device { device ≡ fresh T.program 0 (room_of T.tend) }
        requires counts { (events.total ≡ 0) × (ends.total ≡ 0) × (moves.total ≡ 0) }
    {
        Held {
            device,
            events,
            ends,
            moves,
        }
    }

    /// A hold of the worker of a queue.
    pub fn step(
        &mut self,
        alloc: Global,
        own_queue: u32,
        shares: &mut WorkerShares<T>,
    ) -> Result<WorkerStep, NoMemory>
        ensures events { IfOk result (λ step. shares.new.events.amount ≡ shares.old.events.amount + events_of step) }
        ensures ends { IfOk result (λ step. shares.new.ends.amount ≡ shares.old.ends.amount + ends_of step) }
        ensures parts { shares.new.events.parts ≡ shares.old.events.parts }
        ensures err { OnErr result (shares.new ≡ shares.old) }
    {
        let Held {
            device,
            events,
            ends,
            moves: _,
        } = self;
        let step = take_step(device, alloc, own_queue)?;
        let WorkerShares {
            events: made,
            ends: found,
        } = shares;
        events.add(made, events_of(&step));
        ends.add(found, ends_of(&step));
        Ok(step)
    }

    /// A hold in which a command ends.
    pub fn land(&mut self, done: Finished, shares: &mut WorkerShares<T>) -> Landed
        ensures events { shares.new.events.amount ≡ shares.old.events.amount + events_of_end result }
        ensures ends { shares.new.ends ≡ shares.old.ends }
        ensures parts { shares.new.events.parts ≡ shares.old.events.parts }
    {
        let Held {
            device,
            events,
            ends: _,
            moves: _,
        } = self;
        let landed = device.end(done);
        events.add(&mut shares.events, events_of_end(landed));
        landed
    }

    /// A hold of the tender.
    pub fn tend(&mut self, cache_move: CacheMove, shares: &mut TenderShares<T>) -> bool
        requires { Owes cache_move (tender_part T.program T.tend shares.old.events.parts shares.old.events.amount shares.old.moves.amount) }
        ensures { Pays cache_move result (tender_part T.program T.tend shares.old.events.parts shares.old.events.amount shares.old.moves.amount) (tender_part T.program T.tend shares.new.events.parts shares.new.events.amount shares.new.moves.amount) }
    {
        let Held {
            device,
            events,
            ends: _,
            moves,
        } = self;
        let TenderShares {
            events: mine,
            moves: made,
        } = shares;
        moves.audit(made);
        let is_made = tend_once(device, cache_move);
        let count = one_if(is_made);
        events.add(mine, count);
        moves.add(made, count);
        is_made
    }

    /// The device, once all shares are together again. Its events are those that they count.
    pub fn finish(self, workers: WorkerShares<T>, tender: TenderShares<T>) -> Device
        requires whole { workers.events.parts + tender.events.parts ≡ T.parts }
        requires moved { drop tender.moves.amount (tended_moves T.program T.tend 256) ≡ [] }
        ensures program { result.program ≡ T.program }
        ensures fill { result.fill ≡ 0 }
        ensures came { AllCame result }
        ensures counted { length result.history ≡ workers.events.amount + tender.events.amount }
        ensures moves { moves_in result.history ≡ tended_moves T.program T.tend 256 }
        ensures complete { 0 < workers.ends.amount → IsComplete result }
    {
        let Held {
            device,
            mut events,
            mut ends,
            mut moves,
        } = self;
        let WorkerShares {
            events: mut all,
            ends: mut found,
        } = workers;
        let TenderShares {
            events: tended,
            moves: mut made,
        } = tender;
        all.merge(tended);
        events.audit(&mut all);
        ends.audit(&mut found);
        moves.audit(&mut made);
        let _came = device.history();
        device
    }
}
