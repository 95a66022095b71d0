ghost use Rattle.std.specs.Prelude.{◌≡◌, ◌<◌, ◌≤◌, ◌+◌, ◌*◌, ◌==◌, if◌then◌else◌, [], ◌∷◌, length, IfOk, OnOk};
ghost use Rattle.device_cache.specs.Tables.{size_of, junk_of, InMemory, Keeps};
ghost use Rattle.device_cache.specs.Internal.Kept.{Knows};

use crate::caches_plain::{Byte, Plain};
use crate::caches_step::{Call, Step};
use base::{CacheMove, List, MemoryRange, MoveKind, NoMemory};
use bytes::BytesMut;
use device_cache::{Contents, Segments, Tender};
use std::alloc::Global;
use std::process::Abort;
use std::test::Fail;

const AGENTS: u32 = 3;

const LARGE: u32 = 64;

const SMALL: u32 = 16;

const EVENTS: u32 = 1000;

// The bytes that a step stores.
fn stored(alloc: Global, step: Step) -> Result<BytesMut, NoMemory>
    ensures { IfOk result (λ bytes. length bytes.items ≡ step.len) }
{
    let mut bytes = Vec::new(alloc);
    for k in 0..step.len {
        bytes.push(step.byte(k))?;
    }
    Ok(BytesMut::from_vec(bytes))
}

// A step that stores bytes.
fn put(alloc: Global, table: &mut Segments, step: Step) -> Result<(), NoMemory>
    requires agent { step.agent < table.old.agents }
    requires within { InMemory table.old step.memory step.start step.len }
    requires room { 2 ≤ table.old.cuts_left }
    requires stores { 0 < table.old.stores_left }
    ensures keeps { OnOk result (Keeps table.old table.new) }
    ensures cuts { OnOk result (table.old.cuts_left ≤ table.new.cuts_left + 2) }
    ensures stores { OnOk result (table.old.stores_left ≤ table.new.stores_left + 1) }
{
    let contents = Contents::own(stored(alloc, step)?);
    table.put(step.agent, step.memory, step.start, contents);
    Ok(())
}

fn make(alloc: Global, table: &mut Segments, step: Step) -> Result<(), NoMemory>
    requires agent { step.agent < table.old.agents }
    requires within { InMemory table.old step.memory step.start step.len }
    requires room { 2 ≤ table.old.cuts_left }
    requires stores { 0 < table.old.stores_left }
    requires junk { step.len ≤ length (junk_of table.old) }
    ensures keeps { OnOk result (Keeps table.old table.new) }
    ensures cuts { OnOk result (table.old.cuts_left ≤ table.new.cuts_left + 2) }
    ensures stores { OnOk result (table.old.stores_left ≤ table.new.stores_left + 1) }
{
    match step.call {
        Call::Put => put(alloc, table, step)?,
        Call::WriteBack => table.write_back(step.agent, step.memory, step.start, step.len),
        Call::Fill => table.fill(step.agent, step.memory, step.start, step.len),
        Call::DropClean => table.drop_clean(step.agent, step.memory, step.start, step.len),
        Call::Junk => table.junk(step.memory, step.start, step.len),
        Call::WriteBackAll => table.write_back_all(step.agent),
        Call::DropCleanAll => table.drop_clean_all(step.agent),
    }
    Ok(())
}

// Whether the table shows the same bytes of a memory, to an agent or in main.
fn same_bytes(
    table: &Segments,
    plain: &Plain,
    agent: Option<u32>,
    memory: u32,
    out: &mut [u8],
) -> bool
    requires agent { Knows table.now.agents agent }
    requires memory { memory < 2 }
    requires within { InMemory table.now memory 0 (length out.old) }
    requires small { length out.old ≤ LARGE }
{
    match agent {
        None => table.read_main(memory, 0, out),
        Some(agent) => table.load(agent, memory, 0, out),
    }
    let base = memory as usize * LARGE as usize;
    for k in 0..out.len() {
        if out[k] != plain.seen(agent, base + k) {
            return false;
        }
    }
    true
}

fn same_all(table: &Segments, plain: &Plain, large: &mut [u8], small: &mut [u8]) -> bool
    requires agents { table.now.agents ≡ AGENTS }
    requires memories { length table.now.memories ≡ 2 }
    requires large { (size_of table.now 0 ≡ LARGE) × (length large.old ≡ LARGE) }
    requires small { (size_of table.now 1 ≡ SMALL) × (length small.old ≡ SMALL) }
{
    for agent in 0..AGENTS {
        if !same_bytes(table, plain, Some(agent), 0, large)
            || !same_bytes(table, plain, Some(agent), 1, small)
        {
            return false;
        }
    }
    same_bytes(table, plain, None, 0, large) && same_bytes(table, plain, None, 1, small)
}

// The next step that a tender draws in the two memories.
fn drawn(tender: &mut Tender) -> Step
    ensures agent { result.agent < AGENTS }
    ensures memory { result.memory < 2 }
    ensures within { result.start + result.len ≤ (if result.memory == 0 then LARGE else SMALL) }
{
    let sizes = [LARGE, SMALL];
    match tender.next(AGENTS, &sizes) {
        Some(cache_move) => Step::of(cache_move),
        None => unreachable!(),
    }
}

// The next move, or one of all lines of its agent.
fn moved(tender: &mut Tender, all: bool) -> Step
    ensures agent { result.agent < AGENTS }
    ensures memory { result.memory < 2 }
    ensures within { result.start + result.len ≤ (if result.memory == 0 then LARGE else SMALL) }
{
    let step = drawn(tender);
    if all { step.everywhere() } else { step }
}

// A step on the table and on the bytes, and whether they show the same then.
fn both(
    alloc: Global,
    table: &mut Segments,
    plain: &mut Plain,
    step: Step,
) -> Result<bool, NoMemory>
    requires agents { table.old.agents ≡ AGENTS }
    requires memories { length table.old.memories ≡ 2 }
    requires large { size_of table.old 0 ≡ LARGE }
    requires small { size_of table.old 1 ≡ SMALL }
    requires junk { length (junk_of table.old) ≡ LARGE }
    requires cuts { 2 ≤ table.old.cuts_left }
    requires stores { 0 < table.old.stores_left }
    requires agent { step.agent < AGENTS }
    requires memory { step.memory < 2 }
    requires within { step.start + step.len ≤ (if step.memory == 0 then LARGE else SMALL) }
    ensures keeps { OnOk result (Keeps table.old table.new) }
    ensures cuts { OnOk result (table.old.cuts_left ≤ table.new.cuts_left + 2) }
    ensures stores { OnOk result (table.old.stores_left ≤ table.new.stores_left + 1) }
{
    let mut large = [0; 64];
    let mut small = [0; 16];
    make(alloc, table, step)?;
    plain.make(step, step.memory as usize * LARGE as usize);
    Ok(same_all(table, plain, &mut large, &mut small))
}

// A store and a move, again and again; each eighth move is of all lines of its agent.
fn rounds(
    rt: &impl Abort,
    alloc: Global,
    table: &mut Segments,
    plain: &mut Plain,
) -> Result<(), NoMemory>
    requires agents { table.old.agents ≡ AGENTS }
    requires memories { length table.old.memories ≡ 2 }
    requires large { size_of table.old 0 ≡ LARGE }
    requires small { size_of table.old 1 ≡ SMALL }
    requires junk { length (junk_of table.old) ≡ LARGE }
    requires cuts { 4 * EVENTS ≤ table.old.cuts_left }
    requires stores { 2 * EVENTS ≤ table.old.stores_left }
{
    let mut stores = Tender::new(1);
    let mut moves = Tender::new(2);
    for k in 0..EVENTS {
        let store = drawn(&mut stores).storing();
        assert!(rt; both(alloc, table, plain, store)?);
        let step = moved(&mut moves, k % 8 == 0);
        assert!(rt; both(alloc, table, plain, step)?);
    }
    Ok(())
}

// Bytes that differ from place to place.
fn some_bytes(alloc: Global, count: u32) -> Result<BytesMut, NoMemory>
    ensures { IfOk result (λ bytes. length bytes.items ≡ count) }
{
    stored(
        alloc,
        Step {
            call: Call::Put,
            agent: 0,
            memory: 0,
            start: 0,
            len: count,
        },
    )
}

fn junk(alloc: Global) -> Result<BytesMut, NoMemory>
    ensures { IfOk result (λ bytes. length bytes.items ≡ LARGE) }
{
    let mut bytes = Vec::new(alloc);
    for k in 0..LARGE {
        bytes.push((k % 251) as u8)?;
    }
    Ok(BytesMut::from_vec(bytes))
}

fn two(alloc: Global, large: BytesMut, small: BytesMut) -> Result<List<Contents>, NoMemory>
    ensures { IfOk result (λ opening. opening ≡ large.items ∷ small.items ∷ []) }
{
    let mut opening = List::new(alloc);
    opening.push(Contents::own(large))?;
    opening.push(Contents::own(small))?;
    Ok(opening)
}

fn table(alloc: Global, large: BytesMut, small: BytesMut) -> Result<Segments, NoMemory>
    requires large { length large.items ≡ LARGE }
    requires small { length small.items ≡ SMALL }
    ensures agents { IfOk result (λ t. t.agents ≡ AGENTS) }
    ensures memories { IfOk result (λ t. length t.memories ≡ 2) }
    ensures large { IfOk result (λ t. size_of t 0 ≡ LARGE) }
    ensures small { IfOk result (λ t. size_of t 1 ≡ SMALL) }
    ensures junk { IfOk result (λ t. length (junk_of t) ≡ LARGE) }
    ensures cuts { IfOk result (λ t. t.cuts_left ≡ 4 * EVENTS) }
    ensures stores { IfOk result (λ t. t.stores_left ≡ 2 * EVENTS) }
{
    let opening = two(alloc, large, small)?;
    let junk = junk(alloc)?;
    Segments::new(
        alloc,
        AGENTS,
        opening,
        Contents::own(junk),
        &[(0, 20)],
        2 * EVENTS,
        2 * EVENTS,
    )
}

#[test]
fn table_does_as_single_bytes_do(rt: HostRuntime) -> Result<(), Fail> {
    let alloc = rt.alloc();
    let large = some_bytes(alloc, LARGE)?;
    let small = some_bytes(alloc, SMALL)?;
    let mut main = Vec::from_slice(alloc, &large)?;
    main.extend_from_slice(&small)?;
    let mut plain = Plain {
        main,
        lines: vec![in alloc; Byte::Absent; 240]?,
    };
    let mut table = table(alloc, large, small)?;
    rounds(&rt, alloc, &mut table, &mut plain)?;
    Ok(())
}

// The words come from the generator's published C code, which gives the words documented for state 42 and stream 54;
// the moves were reckoned from them by hand.
#[test]
fn tender_draws_by_words(rt: HostRuntime) {
    let mut tender = Tender::new(42);
    for cache_move in [
        CacheMove {
            kind: MoveKind::WriteBack,
            agent: 4,
            range: MemoryRange {
                memory: 1,
                start: 1869,
                len: 1159,
            },
        },
        CacheMove {
            kind: MoveKind::Fill,
            agent: 1,
            range: MemoryRange {
                memory: 4,
                start: 29318,
                len: 3345,
            },
        },
        CacheMove {
            kind: MoveKind::DropLine,
            agent: 0,
            range: MemoryRange {
                memory: 4,
                start: 52887,
                len: 863,
            },
        },
        CacheMove {
            kind: MoveKind::Fill,
            agent: 0,
            range: MemoryRange {
                memory: 2,
                start: 25,
                len: 58,
            },
        },
    ] {
        assert_eq!(rt; tender.next(5, &[0, 5000, 100, 0, 70000]), Some(cache_move));
    }
    assert_eq!(rt; tender.next(5, &[0, 0]), None);
}
