//! The bytes of memories and of the lines before them, in segments.

ghost use Rattle.std.specs.Prelude.{◌≡◌, ◌<◌, ◌≤◌, ◌+◌, ◌-◌, ◌*◌, ◌^◌, IfOk, ℕ, length, slice_index, true, false, Some, if◌then◌else◌};
ghost use Rattle.std.specs.List.{All, sum_by};
ghost use Rattle.base.specs.Maxima.{max_memories, max_memory_bytes, max_nodes};
ghost use Rattle.device_cache.specs.Lines.{range, is_in};
ghost use Rattle.device_cache.specs.Effects as effects;
ghost use Rattle.device_cache.specs.Internal.Rows.{changed, changed_if, seen_byte};
ghost use Rattle.device_cache.specs.Places.{row_at, cut_in};
ghost use Rattle.device_cache.specs.Internal.Segments.{within};
ghost use Rattle.device_cache.specs.Internal.Uses.{uses};

use crate::change::Change;
use crate::contents::Contents;
use crate::memory::Memory;
use crate::opening::{counts_of, lay_out, room_for, slots_of};
use crate::part::Part;
use crate::runs::{copy_out, seen_bytes};
use crate::segment::{Segment, change_all, cut_at, place_of};
use crate::slots::{empty_slot, share_all, spare_slot, store_in};
use base::{CacheMove, List, MemoryRange, MoveKind, NoMemory};
use bytes::BytesMut;
use std::alloc::Global;
use std::marker::Model;

/// Main bytes of memories, and the lines of agents before them.
#[derive(Drop)]
pub struct Segments {
    agents: u32,
    memories: Vec<Memory>,
    // The memories lie one behind the other; this is the first address past them.
    total: u32,
    segments: Vec<Segment>,
    // Slot 0 has the junk.
    slots: Vec<Contents>,
    // By the slot: at least as many as parts name it, and of slot 0 one more.
    counts: Vec<u32>,
    // Slots of stores whose bytes are not shared yet. Where one is left out its bytes are copied.
    stored: Vec<u32>,
    cuts_left: u64,
    stores_left: u32,
}

impl Model for Segments {
    ghost use Rattle.device_cache.specs.Tables.{Table};

    ghost Value = { Table };

    ghost use Rattle.device_cache.specs.Internal.Kept.{view_of, IsKept};

    ghost view = { view_of };

    ghost invariant = { IsKept };
}

impl Segments {
    ghost use Rattle.device_cache.specs.Tables.{size_of, address, slot_at, byte_in, caches_of, junk_of, is_cut, missing, InMemory, Keeps};
    ghost use Rattle.device_cache.specs.Tables.{IsMade};
    ghost use Rattle.device_cache.specs.Internal.Kept.{ChangeFits, Knows};

    /// The opening bytes as main, memory by memory, and no lines. A cut is a memory and a place in it; the start and the
    /// end of each memory are always cut. There is room for two cuts for each of `moves`, and for `stores` stores.
    pub fn new(
        alloc: Global,
        agents: u32,
        opening: List<Contents>,
        junk: Contents,
        cuts: &[(u32, u32)],
        moves: u32,
        stores: u32,
    ) -> Result<Segments, NoMemory>
        requires agents { agents ≤ 32 }
        requires few { length opening ≤ max_memories }
        requires small { sum_by length opening ≤ max_memory_bytes }
        requires stores { stores ≤ max_nodes }
        requires cuts { All (λ c. (c.0 < length opening) × (c.1 ≤ length (slot_at opening c.0))) cuts.now }
        ensures made { IfOk result (λ t. IsMade t agents opening junk) }
        ensures cuts { IfOk result (λ t. All (λ c. is_cut t c.0 c.1 ≡ true) cuts.now) }
        ensures cuts_left { IfOk result (λ t. t.cuts_left ≡ 2 * moves) }
        ensures stores_left { IfOk result (λ t. t.stores_left ≡ stores) }
    {
        let room = 2 * u64::from(moves);
        let mut table = Segments::open(
            alloc,
            agents,
            opening,
            junk,
            cuts.len() as u64 + room,
            stores,
        )?;
        table.cut_places(cuts);
        table.cuts_left = room;
        Ok(table)
    }

    // The table without further cuts.
    fn open(
        alloc: Global,
        agents: u32,
        opening: List<Contents>,
        junk: Contents,
        cuts: u64,
        stores: u32,
    ) -> Result<Segments, NoMemory>
        requires agents { agents ≤ 32 }
        requires few { length opening ≤ max_memories }
        requires small { sum_by length opening ≤ max_memory_bytes }
        requires stores { stores ≤ max_nodes }
        requires cuts { cuts < 2 ^ 62 }
        ensures made { IfOk result (λ t. IsMade t agents opening junk) }
        ensures cuts_left { IfOk result (λ t. t.cuts_left ≡ cuts) }
        ensures stores_left { IfOk result (λ t. t.stores_left ≡ stores) }
    {
        let slots = slots_of(junk, opening, stores)?;
        let count = slots.len();
        let counts = counts_of(alloc, count, stores)?;
        let mut memories = room_for(alloc, count)?;
        let mut segments = room_for(alloc, count + cuts as usize)?;
        let stored = room_for(alloc, stores as usize)?;
        let total = lay_out(&slots, &mut memories, &mut segments);
        Ok(Segments {
            agents,
            memories,
            total,
            segments,
            slots,
            counts,
            stored,
            cuts_left: cuts,
            stores_left: stores,
        })
    }

    // Cuts the table at places of its memories.
    fn cut_places(&mut self, cuts: &[(u32, u32)])
        requires within { All (λ c. InMemory self.old c.0 c.1 0) cuts.now }
        requires room { length cuts.now ≤ self.old.cuts_left }
        ensures same { self.new ≡ record self.old { segments = self.new.segments; cuts_left = self.new.cuts_left } }
        ensures rows { (x : ℕ) → row_at self.new.segments x ≡ row_at self.old.segments x }
        ensures kept { (x : ℕ) → cut_in self.old.segments x ≡ true → cut_in self.new.segments x ≡ true }
        ensures here { All (λ c. is_cut self.new c.0 c.1 ≡ true) cuts.now }
        ensures left { self.old.cuts_left ≤ self.new.cuts_left + length cuts.now }
    {
        for place in cuts {
            let at = self.first_address(place.0, place.1, 0);
            self.cut(at);
        }
    }

    /// Cuts the table at those of the places that it has, as long as there is room for that. Each cut moves the segments behind
    /// it, so rising places are quickest.
    pub fn cut_more(&mut self, places: &[(u32, u32)])
        ensures bytes { caches_of self.new ≡ caches_of self.old }
        ensures keeps { Keeps self.old self.new }
        ensures cuts { self.old.cuts_left ≤ self.new.cuts_left + length places.now }
        ensures stores { self.new.stores_left ≡ self.old.stores_left }
    {
        for place in places {
            self.cut_place(place.0, place.1);
        }
    }

    fn cut_place(&mut self, memory: u32, at: u32)
        ensures bytes { caches_of self.new ≡ caches_of self.old }
        ensures keeps { Keeps self.old self.new }
        ensures cuts { self.old.cuts_left ≤ self.new.cuts_left + 1 }
        ensures stores { self.new.stores_left ≡ self.old.stores_left }
    {
        if self.cuts_left == 0 {
            return;
        }
        if !self.has_place(memory, at) {
            return;
        }
        let address = self.first_address(memory, at, 0);
        self.cut(address);
    }

    // Whether the place is in a memory, or its end.
    fn has_place(&self, memory: u32, at: u32) -> bool
        ensures { result ≡ true → InMemory self.now memory at 0 }
    {
        let memory = memory as usize;
        if memory >= self.memories.len() {
            return false;
        }
        at <= self.memories[memory].size
    }

    /// How many agents there are.
    pub fn agents(&self) -> u32
        ensures { result ≡ self.now.agents }
    {
        self.agents
    }

    /// How many more cuts there is room for.
    pub fn cuts_left(&self) -> u64
        ensures { result ≡ self.now.cuts_left }
    {
        self.cuts_left
    }

    /// How many more stores there is room for.
    pub fn stores_left(&self) -> u32
        ensures { result ≡ self.now.stores_left }
    {
        self.stores_left
    }

    // Cuts the table at an address, unless it is cut there.
    fn cut(&mut self, at: u32)
        requires within { at ≤ self.old.total }
        requires room { cut_in self.old.segments at ≡ false → 0 < self.old.cuts_left }
        ensures same { self.new ≡ record self.old { segments = self.new.segments; cuts_left = self.new.cuts_left } }
        ensures left { self.new.cuts_left + (if cut_in self.old.segments at then 0 else 1) ≡ self.old.cuts_left }
        ensures rows { (x : ℕ) → row_at self.new.segments x ≡ row_at self.old.segments x }
        ensures here { cut_in self.new.segments at ≡ true }
        ensures kept { (x : ℕ) → cut_in self.old.segments x ≡ true → cut_in self.new.segments x ≡ true }
    {
        if cut_at(&mut self.segments, &mut self.counts, at) {
            self.cuts_left -= 1;
        }
    }

    // Changes what lies between two cuts.
    fn change_between(&mut self, from: u32, to: u32, agent: u32, change: Change)
        requires order { from ≤ to }
        requires within { to ≤ self.old.total }
        requires agent { agent < 32 }
        requires from { cut_in self.old.segments from ≡ true }
        requires to { cut_in self.old.segments to ≡ true }
        requires fits { ChangeFits self.old.slots change from to }
        ensures same { self.new ≡ record self.old { segments = self.new.segments } }
        ensures rows { (x : ℕ) → x < self.old.total → row_at self.new.segments x ≡ changed_if (within from to x) agent change (row_at self.old.segments x) }
        ensures cuts { (x : ℕ) → cut_in self.new.segments x ≡ cut_in self.old.segments x }
    {
        let first = place_of(&self.segments, from);
        let last = place_of(&self.segments, to);
        change_all(
            &mut self.segments,
            &mut self.counts,
            first,
            last,
            agent as usize,
            change,
        );
    }

    // The first address of a range.
    fn first_address(&self, memory: u32, start: u32, len: u32) -> u32
        requires { InMemory self.now memory start len }
        ensures is { result ≡ address self.now memory start }
        ensures within { result + len ≤ self.now.total }
        ensures fits { self.now.total < 2 ^ 32 }
    {
        let _total = self.total;
        self.memories[memory as usize].start + start
    }

    // Cuts the table at both ends of a range, and changes what lies between.
    fn change(&mut self, agent: u32, memory: u32, start: u32, len: u32, change: Change)
        requires agent { agent < 32 }
        requires within { InMemory self.old memory start len }
        requires room { missing self.old memory start len ≤ self.old.cuts_left }
        requires fits { ChangeFits self.old.slots change (address self.old memory start) (address self.old memory start + len) }
        ensures same { self.new ≡ record self.old { segments = self.new.segments; cuts_left = self.new.cuts_left } }
        ensures left { self.old.cuts_left ≤ self.new.cuts_left + missing self.old memory start len }
        ensures cuts { (x : ℕ) → cut_in self.old.segments x ≡ true → cut_in self.new.segments x ≡ true }
        ensures lines { (m i : ℕ) → i < size_of self.old m → agent < length (row_at self.old.segments (address self.old m i)).lines }
        ensures rows { (m i : ℕ) → i < size_of self.old m → row_at self.new.segments (address self.old m i) ≡ changed_if (is_in (range memory start len) m i) agent change (row_at self.old.segments (address self.old m i)) }
    {
        let _total = self.total;
        let from = self.first_address(memory, start, len);
        let to = from + len;
        self.cut(from);
        self.cut(to);
        self.change_between(from, to, agent, change);
    }

    // Changes what lies at all addresses.
    fn change_everywhere(&mut self, agent: u32, change: Change)
        requires agent { agent < 32 }
        requires fits { ChangeFits self.old.slots change 0 self.old.total }
        ensures same { self.new ≡ record self.old { segments = self.new.segments } }
        ensures cuts { (x : ℕ) → cut_in self.old.segments x ≡ true → cut_in self.new.segments x ≡ true }
        ensures lines { (m i : ℕ) → i < size_of self.old m → agent < length (row_at self.old.segments (address self.old m i)).lines }
        ensures rows { (m i : ℕ) → i < size_of self.old m → row_at self.new.segments (address self.old m i) ≡ changed agent change (row_at self.old.segments (address self.old m i)) }
    {
        let total = self.total;
        self.change_between(0, total, agent, change);
    }

    /// Wherever the agent has dirty lines, they go to main and become clean. It is one walk over the table.
    pub fn write_back_all(&mut self, agent: u32)
        requires { agent < self.old.agents }
        ensures bytes { caches_of self.new ≡ effects.write_back_all agent (caches_of self.old) }
        ensures keeps { Keeps self.old self.new }
        ensures cuts { self.new.cuts_left ≡ self.old.cuts_left }
        ensures stores { self.new.stores_left ≡ self.old.stores_left }
    {
        let _agents = self.agents;
        self.change_everywhere(agent, Change::WriteBack);
    }

    /// Wherever the agent has clean lines, they go away.
    pub fn drop_clean_all(&mut self, agent: u32)
        requires { agent < self.old.agents }
        ensures bytes { caches_of self.new ≡ effects.drop_clean_all agent (caches_of self.old) }
        ensures keeps { Keeps self.old self.new }
        ensures cuts { self.new.cuts_left ≡ self.old.cuts_left }
        ensures stores { self.new.stores_left ≡ self.old.stores_left }
    {
        let _agents = self.agents;
        self.change_everywhere(agent, Change::DropClean);
    }

    /// Dirty lines of the agent go to main and become clean.
    pub fn write_back(&mut self, agent: u32, memory: u32, start: u32, len: u32)
        requires agent { agent < self.old.agents }
        requires within { InMemory self.old memory start len }
        requires room { missing self.old memory start len ≤ self.old.cuts_left }
        ensures bytes { caches_of self.new ≡ effects.write_back agent (range memory start len) (caches_of self.old) }
        ensures keeps { Keeps self.old self.new }
        ensures cuts { self.old.cuts_left ≤ self.new.cuts_left + missing self.old memory start len }
        ensures stores { self.new.stores_left ≡ self.old.stores_left }
    {
        let _agents = self.agents;
        self.change(agent, memory, start, len, Change::WriteBack);
    }

    /// Clean lines of the agent go away.
    pub fn drop_clean(&mut self, agent: u32, memory: u32, start: u32, len: u32)
        requires agent { agent < self.old.agents }
        requires within { InMemory self.old memory start len }
        requires room { missing self.old memory start len ≤ self.old.cuts_left }
        ensures bytes { caches_of self.new ≡ effects.drop_clean agent (range memory start len) (caches_of self.old) }
        ensures keeps { Keeps self.old self.new }
        ensures cuts { self.old.cuts_left ≤ self.new.cuts_left + missing self.old memory start len }
        ensures stores { self.new.stores_left ≡ self.old.stores_left }
    {
        let _agents = self.agents;
        self.change(agent, memory, start, len, Change::DropClean);
    }

    /// Bytes without a line of the agent get a clean one from main.
    pub fn fill(&mut self, agent: u32, memory: u32, start: u32, len: u32)
        requires agent { agent < self.old.agents }
        requires within { InMemory self.old memory start len }
        requires room { missing self.old memory start len ≤ self.old.cuts_left }
        ensures bytes { caches_of self.new ≡ effects.fill agent (range memory start len) (caches_of self.old) }
        ensures keeps { Keeps self.old self.new }
        ensures cuts { self.old.cuts_left ≤ self.new.cuts_left + missing self.old memory start len }
        ensures stores { self.new.stores_left ≡ self.old.stores_left }
    {
        let _agents = self.agents;
        self.change(agent, memory, start, len, Change::Fill);
    }

    /// Lines of an agent move.
    pub fn move_lines(&mut self, cache_move: CacheMove)
        requires agent { cache_move.agent < self.old.agents }
        requires within { InMemory self.old cache_move.range.memory cache_move.range.start cache_move.range.len }
        requires room { missing self.old cache_move.range.memory cache_move.range.start cache_move.range.len ≤ self.old.cuts_left }
        ensures bytes { caches_of self.new ≡ effects.move_lines cache_move (caches_of self.old) }
        ensures keeps { Keeps self.old self.new }
        ensures cuts { self.old.cuts_left ≤ self.new.cuts_left + missing self.old cache_move.range.memory cache_move.range.start cache_move.range.len }
        ensures stores { self.new.stores_left ≡ self.old.stores_left }
    {
        let MemoryRange { memory, start, len } = cache_move.range;
        match cache_move.kind {
            MoveKind::WriteBack => self.write_back(cache_move.agent, memory, start, len),
            MoveKind::Fill => self.fill(cache_move.agent, memory, start, len),
            MoveKind::DropLine => self.drop_clean(cache_move.agent, memory, start, len),
        }
    }

    /// The junk, from its start, goes on main.
    pub fn junk(&mut self, memory: u32, start: u32, len: u32)
        requires within { InMemory self.old memory start len }
        requires room { missing self.old memory start len ≤ self.old.cuts_left }
        requires junk { len ≤ length (junk_of self.old) }
        ensures bytes { caches_of self.new ≡ effects.overwrite (range memory start len) (junk_of self.old) (caches_of self.old) }
        ensures keeps { Keeps self.old self.new }
        ensures cuts { self.old.cuts_left ≤ self.new.cuts_left + missing self.old memory start len }
        ensures stores { self.new.stores_left ≡ self.old.stores_left }
    {
        let _agents = self.agents;
        let start_address = self.first_address(memory, start, len);
        let part = Part {
            slot: 0,
            start: start_address,
        };
        self.change(0, memory, start, len, Change::Junk(part));
    }

    // Puts contents into a slot that no part names.
    fn store(&mut self, contents: Contents) -> u32
        requires { 0 < self.old.stores_left }
        ensures same { self.new ≡ record self.old { slots = self.new.slots; stores_left = self.old.stores_left - 1 } }
        ensures slot { result < length self.new.slots }
        ensures here { slot_at self.new.slots result ≡ contents }
        ensures junk { junk_of self.new ≡ junk_of self.old }
        ensures bytes { caches_of self.new ≡ caches_of self.old }
    {
        self.stores_left -= 1;
        let slot = store_in(&mut self.slots, &mut self.counts, contents);
        let _noted = self.stored.push(slot);
        slot
    }

    /// The agent stores bytes. They are moved into the table and not copied.
    pub fn put(&mut self, agent: u32, memory: u32, start: u32, contents: Contents)
        requires agent { agent < self.old.agents }
        requires within { InMemory self.old memory start (length contents) }
        requires room { missing self.old memory start (length contents) ≤ self.old.cuts_left }
        requires store { 0 < self.old.stores_left }
        ensures bytes { caches_of self.new ≡ effects.put agent (range memory start (length contents)) contents (caches_of self.old) }
        ensures keeps { Keeps self.old self.new }
        ensures cuts { self.old.cuts_left ≤ self.new.cuts_left + missing self.old memory start (length contents) }
        ensures stores { self.new.stores_left ≡ self.old.stores_left - 1 }
    {
        let len = self.checked_len(memory, start, contents.len());
        let slot = self.store(contents);
        self.lay(agent, memory, start, len, slot);
    }

    // The length of a range of a memory, which is shorter than all addresses.
    fn checked_len(&self, memory: u32, start: u32, len: usize) -> u32
        requires { InMemory self.now memory start len }
        ensures { result ≡ len }
    {
        let _total = self.total;
        len as u32
    }

    // The agent's lines over a range become dirty ones with the bytes of a slot.
    fn lay(&mut self, agent: u32, memory: u32, start: u32, len: u32, slot: u32)
        requires agent { agent < self.old.agents }
        requires within { InMemory self.old memory start len }
        requires room { missing self.old memory start len ≤ self.old.cuts_left }
        requires slot { slot < length self.old.slots }
        requires bytes { length (slot_at self.old.slots slot) ≡ len }
        ensures bytes { caches_of self.new ≡ effects.put agent (range memory start (length (slot_at self.old.slots slot))) (slot_at self.old.slots slot) (caches_of self.old) }
        ensures keeps { Keeps self.old self.new }
        ensures cuts { self.old.cuts_left ≤ self.new.cuts_left + missing self.old memory start len }
        ensures stores { self.new.stores_left ≡ self.old.stores_left }
    {
        let _agents = self.agents;
        let start_address = self.first_address(memory, start, len);
        let part = Part {
            slot,
            start: start_address,
        };
        self.change(agent, memory, start, len, Change::Put(part));
    }

    /// Just so many bytes, whatever they are, in memory that the table has no use for.
    pub fn take_spare(&mut self, len: usize) -> Option<BytesMut>
        ensures bytes { caches_of self.new ≡ caches_of self.old }
        ensures keeps { Keeps self.old self.new }
        ensures cuts { self.new.cuts_left ≡ self.old.cuts_left }
        ensures stores { self.new.stores_left ≡ self.old.stores_left }
    {
        let slot = spare_slot(&self.slots, &self.counts, len)?;
        self.empty(slot)
    }

    // Takes the bytes out of a slot that no part names.
    fn empty(&mut self, slot: usize) -> Option<BytesMut>
        requires later { 0 < slot }
        requires there { slot < length self.old.slots }
        requires unnamed { uses slot self.old.segments ≡ 0 }
        ensures same { self.new ≡ record self.old { slots = self.new.slots } }
        ensures junk { junk_of self.new ≡ junk_of self.old }
        ensures bytes { caches_of self.new ≡ caches_of self.old }
    {
        empty_slot(&mut self.slots, slot)
    }

    /// What was stored can be seen without a copy from now on. Nothing that a contract sees changes.
    pub fn share(&mut self) -> Result<(), NoMemory>
        ensures { self.new ≡ self.old }
    {
        share_all(&mut self.slots, &mut self.stored)
    }

    /// The bytes as the agent sees them. They are copied only where no store that is shared has them all.
    pub fn seen(
        &self,
        alloc: Global,
        agent: u32,
        memory: u32,
        start: u32,
        len: u32,
    ) -> Result<Contents, NoMemory>
        requires agent { agent < self.now.agents }
        requires within { InMemory self.now memory start len }
        ensures { IfOk result (λ bytes. bytes ≡ effects.load agent (range memory start len) (caches_of self.now)) }
    {
        let bytes = self.look(alloc, agent, memory, start, len)?;
        Ok(bytes)
    }

    fn look(
        &self,
        alloc: Global,
        agent: u32,
        memory: u32,
        start: u32,
        len: u32,
    ) -> Result<Contents, NoMemory>
        requires agent { agent < self.now.agents }
        requires within { InMemory self.now memory start len }
        ensures len { IfOk result (λ bytes. length bytes ≡ len) }
        ensures inside { (k : ℕ) → k < len → start + k < size_of self.now memory }
        ensures bytes { IfOk result (λ bytes. (k : ℕ) → k < len → slice_index bytes k ≡ seen_byte self.now.slots self.now.segments (Some agent) (address self.now memory (start + k))) }
    {
        let _agents = self.agents;
        let from = self.first_address(memory, start, len);
        let bytes = seen_bytes(alloc, &self.segments, &self.slots, Some(agent), from, len)?;
        Ok(bytes)
    }

    /// The bytes as the agent sees them.
    pub fn load(&self, agent: u32, memory: u32, start: u32, out: &mut [u8])
        requires agent { agent < self.now.agents }
        requires within { InMemory self.now memory start (length out.old) }
        ensures { out.new ≡ effects.load agent (range memory start (length out.old)) (caches_of self.now) }
    {
        self.copy(Some(agent), memory, start, out);
    }

    /// The bytes of main.
    pub fn read_main(&self, memory: u32, start: u32, out: &mut [u8])
        requires within { InMemory self.now memory start (length out.old) }
        ensures { out.new ≡ effects.read_main (range memory start (length out.old)) (caches_of self.now) }
    {
        self.copy(None, memory, start, out);
    }

    fn copy(&self, agent: Option<u32>, memory: u32, start: u32, out: &mut [u8])
        requires agent { Knows self.now.agents agent }
        requires within { InMemory self.now memory start (length out.old) }
        ensures inside { (k : ℕ) → k < length out.old → start + k < size_of self.now memory }
        ensures bytes { (k : ℕ) → k < length out.old → slice_index out.new k ≡ seen_byte self.now.slots self.now.segments agent (address self.now memory (start + k)) }
    {
        let _agents = self.agents;
        let len = self.checked_len(memory, start, out.len());
        let from = self.first_address(memory, start, len);
        copy_out(&self.segments, &self.slots, agent, from, out);
    }
}
