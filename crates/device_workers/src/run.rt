//! Workers and a tender on a device of their own.

ghost use Rattle.std.specs.Prelude.{◌≡◌, ◌≤◌, ◌<◌, ◌+◌, ◌^◌, ◌*◌, [], length, drop, Some, IfOk, OnOk};
ghost use denote.Param.Send.{IsSync};
ghost use Rattle.device_drive.specs.Tended.{sizes_of, tended_moves};
ghost use Rattle.device_model.specs.Devices.{fresh};
ghost use Rattle.device_workers.specs.Parts.{room_of};
ghost use Rattle.device_workers.specs.Worked.{Worked};

use crate::held::{EndLedger, EventLedger, Held, MoveLedger, Task, TenderShares, WorkerShares};
use crate::hold::{Shared, SharedMover};
use crate::tending::{moves_of, tend_through};
use crate::worker::work_through;
use base::{List, NoMemory};
use base_io::Gate;
use check_program::Checked;
use device::Device;
use device_drive::sizes_of;
use rayon::current_num_threads;
use std::alloc::Global;
use std::marker::Brand;
use std::sync::ledger::{Blank, Ledger};
use std::sync::{Condvar, Mutex, Wait};
use std::thread::{Threads, join};

// What the parts of a run share.
#[derive(Drop)]
struct Run<T: Task>
where
    EventLedger<T>: Ledger,
    EndLedger<T>: Ledger,
    MoveLedger<T>: Ledger,
{
    held: Mutex<Held<T>>,
    bell: Condvar,
    queues: u32,
    // Of the memories, in bytes.
    sizes: List<u32>,
    ghost queue_count: { queues ≡ length T.program.queues },
    ghost memory_sizes: { sizes ≡ sizes_of T.program },
    ghost some_queue: { 1 ≤ queues },
    ghost few_queues: { 8 * queues < 2 ^ 32 },
    ghost few_memories: { length sizes < 2 ^ 32 },
}

// How workers ended, and what they counted.
type Ended<T> = (Result<(), NoMemory>, WorkerShares<T>);

// What a run begins with: ledgers that are of no run yet.
#[derive(Drop)]
struct Blanks {
    events: Blank,
    ends: Blank,
    moves: Blank,
}

// A run with the shares of its parts, before any of them begins.
#[derive(Drop)]
struct Opened<T: Task>
where
    EventLedger<T>: Ledger,
    EndLedger<T>: Ledger,
    MoveLedger<T>: Ledger,
{
    run: Run<T>,
    workers: WorkerShares<T>,
    tender: TenderShares<T>,
    ghost whole: { workers.events.parts + tender.events.parts ≡ T.parts },
    ghost events: { T.parts ≤ workers.events.parts + 1 },
    ghost ends: { T.parts ≤ workers.ends.parts + 1 },
    ghost fresh: { tender.moves.amount ≡ 0 },
}

// A device that has done nothing.
fn fresh(
    rt: &impl Threads,
    alloc: Global,
    program: &Checked,
    tend: Option<u64>,
) -> Result<Device, NoMemory>
    ensures { IfOk result (λ device. device ≡ fresh program.now.program 0 (room_of tend)) }
{
    let mut device = Device::new(alloc, program, 0, moves_of(tend))?;
    device.lend_threads(current_num_threads(rt));
    Ok(device)
}

fn queue_count(program: &Checked) -> u32
    ensures is { result ≡ length program.now.program.queues }
    ensures some { 1 ≤ result }
    ensures few { 8 * result < 2 ^ 32 }
{
    program.shaped().program().queues.len() as u32
}

// In bytes.
fn memory_sizes(alloc: Global, program: &Checked) -> Result<List<u32>, NoMemory>
    ensures are { IfOk result (λ sizes. sizes ≡ sizes_of program.now.program) }
    ensures few { IfOk result (λ sizes. length sizes < 2 ^ 32) }
{
    let sizes = sizes_of(alloc, program.shaped().program())?;
    Ok(sizes)
}

// What both did. Memory has run out where one of them found none.
fn both<T: Task>(first: Ended<T>, second: Ended<T>) -> Ended<T>
    ensures parts { result.1.events.parts ≡ first.1.events.parts + second.1.events.parts }
    ensures found { OnOk first.0 (0 < first.1.ends.amount) → OnOk result.0 (0 < result.1.ends.amount) }
{
    let (end, mut shares) = first;
    let (other_end, others) = second;
    shares.merge(others);
    (end.and(other_end), shares)
}

impl<T: Task + Sync> Run<T> {
    // A device of the program that has done nothing, with ledgers that count nothing.
    fn open(
        rt: &impl Threads,
        alloc: Global,
        blanks: Blanks,
        program: &Checked,
        tend: Option<u64>,
    ) -> Result<Opened<T>, NoMemory>
        requires events { (blanks.events.name ≡ T.event_ledger) × (blanks.events.parts ≡ T.parts) }
        requires ends { (blanks.ends.name ≡ T.end_ledger) × (blanks.ends.parts ≡ T.parts) }
        requires moves { (blanks.moves.name ≡ T.move_ledger) × (blanks.moves.parts ≡ 1) }
        requires some { 2 ≤ T.parts }
        requires program { T.program ≡ program.now.program }
        requires tend { T.tend ≡ tend }
    {
        let device = fresh(rt, alloc, program, tend)?;
        let sizes = memory_sizes(alloc, program)?;
        let (events, mut made) = blanks.events.open::<EventLedger<T>>();
        let (ends, found) = blanks.ends.open::<EndLedger<T>>();
        let (moves, moved) = blanks.moves.open::<MoveLedger<T>>();
        let tender = TenderShares {
            events: made.split_off(1, 0),
            moves: moved,
        };
        let workers = WorkerShares {
            events: made,
            ends: found,
        };
        let run = Run {
            held: Mutex::new(Held::new(device, events, ends, moves)),
            bell: Condvar::new(),
            queues: queue_count(program),
            sizes,
        };
        Ok(Opened {
            run,
            workers,
            tender,
        })
    }

    // A worker, of its number modulo the number of queues. A hold of the lock ends the command that it computed, or is a step: the event of
    // the least ready node of its own queue, else of the other queues in rising order, else a host read. It waits at the bell only where
    // in this hold no node was ready and not all were done. It leaves with nothing begun of its own, and rings the bell before it does.
    fn worker<R: Threads + Wait + Sync, G: Gate>(
        &self,
        rt: &R,
        alloc: Global,
        number: usize,
        shares: WorkerShares<T>,
        gate: &G,
    ) -> Ended<T>
        ensures parts { result.1.events.parts ≡ shares.events.parts }
        ensures found { OnOk result.0 (0 < result.1.ends.amount) }
    {
        let own_queue = number % self.queues as usize;
        let mut shared = Shared {
            rt,
            held: &self.held,
            bell: &self.bell,
            shares,
        };
        let end = work_through(rt, alloc, &mut shared, own_queue as u32, gate);
        let Shared { shares, .. } = shared;
        (end, shares)
    }

    // So many workers from a number on, each in a thread of its own where one can be made.
    #[cycle(halves)]
    fn workers_from<R: Threads + Wait + Sync, G: Gate + Sync>(
        &self,
        rt: &R,
        alloc: Global,
        from: usize,
        count: usize,
        mut shares: WorkerShares<T>,
        gate: &G,
    ) -> Ended<T>
        requires some { 0 < count }
        requires few { from + count < 2 ^ 64 }
        requires parts { (count ≤ shares.events.parts) × (count ≤ shares.ends.parts) }
        ensures parts { result.1.events.parts ≡ shares.events.parts }
        ensures found { OnOk result.0 (0 < result.1.ends.amount) }
    {
        if count == 1 {
            return self.worker(rt, alloc, from, shares, gate);
        }
        let low = count / 2;
        let high = count - low;
        let up = from + low;
        let theirs = shares.split(low as u64);
        let front = move || -> Ended<T>
            requires { IsSync R.row × IsSync G.row × IsSync T.row × (0 < low) × (from + low < 2 ^ 64) × (low ≤ theirs.events.parts) × (low ≤ theirs.ends.parts) }
            ensures { (result.1.events.parts ≡ theirs.events.parts) × OnOk result.0 (0 < result.1.ends.amount) }
        { self.workers_from(rt, alloc, from, low, theirs, gate) };
        let back = move || -> Ended<T>
            requires { IsSync R.row × IsSync G.row × IsSync T.row × (0 < high) × (up + high < 2 ^ 64) × (high ≤ shares.events.parts) × (high ≤ shares.ends.parts) }
            ensures { (result.1.events.parts ≡ shares.events.parts) × OnOk result.0 (0 < result.1.ends.amount) }
        { self.workers_from(rt, alloc, up, high, shares, gate) };
        let (first, second) = join(rt, front, back);
        both(first, second)
    }

    // All workers, in their order.
    fn workers<R: Threads + Wait + Sync, G: Gate + Sync>(
        &self,
        rt: &R,
        alloc: Global,
        count: u32,
        shares: WorkerShares<T>,
        gate: &G,
    ) -> Ended<T>
        requires parts { (count ≤ shares.events.parts) × (count ≤ shares.ends.parts) }
        ensures parts { result.1.events.parts ≡ shares.events.parts }
        ensures found { 0 < count → OnOk result.0 (0 < result.1.ends.amount) }
    {
        if count == 0 {
            return (Ok(()), shares);
        }
        self.workers_from(rt, alloc, 0, count as usize, shares, gate)
    }

    // The tender of a seed.
    fn tender<R: Wait>(&self, rt: &R, seed: u64, shares: TenderShares<T>) -> TenderShares<T>
        requires seeded { T.tend ≡ Some seed }
        requires fresh { shares.moves.amount ≡ 0 }
        ensures parts { result.events.parts ≡ shares.events.parts }
        ensures moved { drop result.moves.amount (tended_moves T.program T.tend 256) ≡ [] }
    {
        let mut shared = SharedMover {
            rt,
            held: &self.held,
            shares,
        };
        tend_through(&mut shared, seed, 8 * self.queues, &self.sizes);
        let SharedMover { shares, .. } = shared;
        shares
    }

    // All parts, each in a thread of its own where one can be made; the tender comes last.
    fn parts<R: Threads + Wait + Sync, G: Gate + Sync>(
        &self,
        rt: &R,
        alloc: Global,
        count: u32,
        tend: Option<u64>,
        workers: WorkerShares<T>,
        tender: TenderShares<T>,
        gate: &G,
    ) -> (Ended<T>, TenderShares<T>)
        requires tend { T.tend ≡ tend }
        requires parts { (count ≤ workers.events.parts) × (count ≤ workers.ends.parts) }
        requires fresh { tender.moves.amount ≡ 0 }
        ensures parts { (result.0.1.events.parts ≡ workers.events.parts) × (result.1.events.parts ≡ tender.events.parts) }
        ensures found { 0 < count → OnOk result.0.0 (0 < result.0.1.ends.amount) }
        ensures moved { drop result.1.moves.amount (tended_moves T.program T.tend 256) ≡ [] }
    {
        let Some(seed) = tend else {
            return (self.workers(rt, alloc, count, workers, gate), tender);
        };
        let front = move || -> Ended<T>
            requires { IsSync R.row × IsSync G.row × IsSync T.row × (count ≤ workers.events.parts) × (count ≤ workers.ends.parts) }
            ensures { (result.1.events.parts ≡ workers.events.parts) × (0 < count → OnOk result.0 (0 < result.1.ends.amount)) }
        { self.workers(rt, alloc, count, workers, gate) };
        let back = move || -> TenderShares<T>
            requires { IsSync T.row × (T.tend ≡ Some seed) × (tender.moves.amount ≡ 0) }
            ensures { (result.events.parts ≡ tender.events.parts) × (drop result.moves.amount (tended_moves T.program T.tend 256) ≡ []) }
        { self.tender(rt, seed, tender) };
        join(rt, front, back)
    }
}

// The same, of one run.
fn run_task<R: Threads + Wait + Sync, G: Gate + Sync, T: Task + Sync>(
    rt: &R,
    alloc: Global,
    blanks: Blanks,
    program: &Checked,
    workers: u32,
    tend: Option<u64>,
    gate: &G,
) -> Result<Device, NoMemory>
    requires events { (blanks.events.name ≡ T.event_ledger) × (blanks.events.parts ≡ T.parts) }
    requires ends { (blanks.ends.name ≡ T.end_ledger) × (blanks.ends.parts ≡ T.parts) }
    requires moves { (blanks.moves.name ≡ T.move_ledger) × (blanks.moves.parts ≡ 1) }
    requires parts { T.parts ≡ workers + 2 }
    requires program { T.program ≡ program.now.program }
    requires tend { T.tend ≡ tend }
    ensures { IfOk result (Worked program.now.program workers tend) }
{
    let opened = Run::<T>::open(rt, alloc, blanks, program, tend)?;
    let Opened {
        run,
        workers: shares,
        tender,
    } = opened;
    let ((end, shares), tender) = run.parts(rt, alloc, workers, tend, shares, tender, gate);
    let device = run.held.into_inner().finish(shares, tender);
    match end {
        Ok(()) => Ok(device),
        Err(_) => {
            if device.complete() {
                Ok(device)
            } else {
                Err(NoMemory)
            }
        }
    }
}

/// A device of the program, opened with zeros, after so many workers have run it. Worker i is of queue i modulo the number of
/// queues. With a seed a tender beside them makes the first `MOVES` cache moves of the seed, also after all nodes are done.
/// What the commands of all workers start beside them are fewer threads than there are processors. Where no thread can be made
/// its part is run in order by the one that calls: a worker by itself takes every queue, and the tender comes last. Memory
/// has run out where the device could not be made, or the list of sizes, or where the device is not complete and a part found
/// none.
pub fn run_workers<R: Threads + Wait + Sync, G: Gate + Sync>(
    rt: &R,
    alloc: Global,
    program: &Checked,
    workers: u32,
    tend: Option<u64>,
    gate: &G,
) -> Result<Device, NoMemory>
    ensures { IfOk result (Worked program.now.program workers tend) }
{
    let parts = workers as u64 + 2;
    let blanks = Blanks {
        events: Blank::new(parts),
        ends: Blank::new(parts),
        moves: Blank::new(1),
    };
    run_task::<R, G, Brand>(rt, alloc, blanks, program, workers, tend, gate)
}
