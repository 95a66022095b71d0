//! What a device is opened with.

ghost use Rattle.std.specs.Prelude.{◌≡◌, ◌<◌, ◌≤◌, ◌+◌, ◌*◌, ◌^◌, ℕ, [], length, map, replicate, vec_len, vec_capacity, IfOk, IfSome, None};
ghost use Rattle.std.specs.List.{All};
ghost use Rattle.base.specs.Maxima.{max_nodes};
ghost use Rattle.base.specs.Shapes.{bytes_of};
ghost use Rattle.device_cache.specs.Effects.{opened};
ghost use Rattle.device_cache.specs.Tables.{caches_of};
ghost use Rattle.device.specs.Internal.Opened.{opened_memory, room_of, piece_end, HasCuts};
ghost use Rattle.device.specs.Internal.Tables.{FitsProgram};
ghost use Rattle.program.specs.Obeys.{Obeys, IsSmall};
ghost use Rattle.program.specs.Rules.{shapes_of};
ghost use Rattle.program.specs.declared.rule.Rule.{Rule};
ghost use Rattle.check_access.specs.Views.{piece_at};

use crate::buffer::Buffer;
use crate::pending::{Pending, none_pending};
use base::{Event, List, NoMemory, Shape};
use bytes::Bytes;
use check_access::View;
use device_cache::{Contents, Segments};
use program::{Memory, Piece, Program};
use std::alloc::Global;

fn opened(alloc: Global, memory: &Memory, fill: u8) -> Result<Contents, NoMemory>
    ensures { IfOk result (λ slot. slot ≡ opened_memory fill memory.now) }
{
    match memory {
        Memory::Plain { size } => Ok(Contents::filled(fill, *size)),
        Memory::Import { bytes } => Ok(Contents::shared(Bytes::copy_from_slice(alloc, bytes)?)),
    }
}

// The imports' bytes, and memories full of one byte.
fn opening_of(alloc: Global, memories: &[Memory], fill: u8) -> Result<List<Contents>, NoMemory>
    ensures { IfOk result (λ opening. opening ≡ map (opened_memory fill) memories.now) }
{
    let mut opening = List::new(alloc);
    for memory in memories {
        opening.push(opened(alloc, memory, fill)?)?;
    }
    Ok(opening)
}

// Both ends of each piece.
fn cuts_of(alloc: Global, pieces: &[Piece]) -> Result<Vec<(u32, u32)>, NoMemory>
    requires { All (λ piece. piece_end piece < 2 ^ 32) pieces.now }
    ensures { IfOk result (λ cuts. HasCuts pieces.now (length pieces.now) cuts.items) }
{
    let mut cuts = Vec::new(alloc);
    for piece in pieces {
        cuts.push((piece.memory, piece.offset))?;
        cuts.push((piece.memory, piece.offset + piece.shape.bytes() as u32))?;
    }
    Ok(cuts)
}

// As many bytes as the longest piece has.
fn longest(pieces: &[Piece]) -> u32
    requires { All (λ piece. bytes_of piece.shape < 2 ^ 32) pieces.now }
    ensures { All (λ piece. bytes_of piece.shape ≤ result) pieces.now }
{
    let mut longest = 0;
    for piece in pieces {
        longest = longest.max(piece.shape.bytes() as u32);
    }
    longest
}

// The table of a program: its memories as they are opened, cut at the ends of all pieces, with room for so many cache moves and
// stores.
fn table_of(
    alloc: Global,
    program: &Program,
    fill: u8,
    moves: u32,
    stores: u32,
) -> Result<Segments, NoMemory>
    requires small { IsSmall program.now }
    requires obeys { (rule : Rule) → Obeys rule program.now }
    requires stores { stores ≤ max_nodes }
    ensures fits { IfOk result (λ table. FitsProgram table program.now fill) }
    ensures opened { IfOk result (λ table. caches_of table ≡ opened (map (opened_memory fill) program.now.memories)) }
    ensures cuts { IfOk result (λ table. table.cuts_left ≡ 2 * moves) }
    ensures stores { IfOk result (λ table. table.stores_left ≡ stores) }
{
    let opening = opening_of(alloc, &program.memories, fill)?;
    let cuts = cuts_of(alloc, &program.pieces)?;
    let junk = Contents::filled(fill, longest(&program.pieces));
    let agents = 8 * program.queues.len() as u32;
    Segments::new(alloc, agents, opening, junk, &cuts, moves, stores)
}

// As many moves as have room for this many, and for a cut at each of so many places.
fn moves_with(moves: u32, places: usize) -> Option<u32>
    ensures { IfSome result (λ all. 2 * moves + places ≤ 2 * all) }
{
    moves.checked_add(u32::try_from(places / 2 + 1).ok()?)
}

// The same table, cut at these places too. That they are cut beforehand is not told, so there is as much room for cuts.
fn cut_table(
    alloc: Global,
    program: &Program,
    fill: u8,
    moves: u32,
    stores: u32,
    places: &[(u32, u32)],
) -> Result<Segments, NoMemory>
    requires small { IsSmall program.now }
    requires obeys { (rule : Rule) → Obeys rule program.now }
    requires stores { stores ≤ max_nodes }
    ensures fits { IfOk result (λ table. FitsProgram table program.now fill) }
    ensures opened { IfOk result (λ table. caches_of table ≡ opened (map (opened_memory fill) program.now.memories)) }
    ensures cuts { IfOk result (λ table. 2 * moves ≤ table.cuts_left) }
    ensures stores { IfOk result (λ table. table.stores_left ≡ stores) }
{
    let Some(all) = moves_with(moves, places.len()) else {
        let table = table_of(alloc, program, fill, moves, stores)?;
        return Ok(table);
    };
    let mut table = table_of(alloc, program, fill, all, stores)?;
    table.cut_more(places);
    Ok(table)
}

/// The table of a program, and the shapes of its pieces.
#[derive(Drop)]
pub(crate) struct Stored {
    pub table: Segments,
    pub shapes: List<Shape>,
}

/// Those of this program, with room for so many cache moves and stores. The table is cut at these places already.
pub(crate) fn stored_of(
    alloc: Global,
    program: &Program,
    fill: u8,
    moves: u32,
    stores: u32,
    places: &[(u32, u32)],
) -> Result<Stored, NoMemory>
    requires small { IsSmall program.now }
    requires obeys { (rule : Rule) → Obeys rule program.now }
    requires stores { stores ≤ max_nodes }
    ensures fits { IfOk result (λ stored. FitsProgram stored.table program.now fill) }
    ensures opened { IfOk result (λ stored. caches_of stored.table ≡ opened (map (opened_memory fill) program.now.memories)) }
    ensures cuts { IfOk result (λ stored. 2 * moves ≤ stored.table.cuts_left) }
    ensures stores { IfOk result (λ stored. stored.table.stores_left ≡ stores) }
    ensures shapes { IfOk result (λ stored. stored.shapes ≡ shapes_of program.now) }
{
    let table = cut_table(alloc, program, fill, moves, stores, places)?;
    let shapes = program.shapes(alloc)?;
    Ok(Stored { table, shapes })
}

// Room for the pieces that are read back.
fn rooms(alloc: Global, view: &View, readbacks: &[u32]) -> Result<Vec<Buffer>, NoMemory>
    requires there { All (λ p. p < length view.now.pieces) readbacks.now }
    requires small { (p : ℕ) → p < length view.now.pieces → bytes_of (piece_at view.now p).shape < 2 ^ 32 }
    ensures { IfOk result (λ rooms. rooms.items ≡ map (room_of view.now) readbacks.now) }
{
    let mut rooms = Vec::new(alloc);
    for piece in readbacks {
        let len = view.piece(*piece).shape.bytes() as u32;
        rooms.push(Buffer::new(alloc, 0, len)?)?;
    }
    Ok(rooms)
}

// No event, and room for so many.
fn history(alloc: Global, count: usize) -> Result<Vec<Event>, NoMemory>
    ensures items { IfOk result (λ history. history.items ≡ []) }
    ensures room { IfOk result (λ history. count + vec_len history ≤ vec_capacity history) }
{
    let mut history = Vec::new(alloc);
    history.reserve(count)?;
    Ok(history)
}

/// What a device keeps of nodes, read-backs and events.
#[derive(Drop)]
pub(crate) struct Lists {
    pub pending: Vec<Option<Pending>>,
    pub reads: Vec<Buffer>,
    pub history: Vec<Event>,
}

/// Those of so many nodes that hold nothing, with room for these read-backs and for so many events.
pub(crate) fn lists_of(
    alloc: Global,
    view: &View,
    readbacks: &[u32],
    count: usize,
    events: usize,
) -> Result<Lists, NoMemory>
    requires there { All (λ p. p < length view.now.pieces) readbacks.now }
    requires small { (p : ℕ) → p < length view.now.pieces → bytes_of (piece_at view.now p).shape < 2 ^ 32 }
    ensures pending { IfOk result (λ lists. lists.pending.items ≡ replicate count None) }
    ensures reads { IfOk result (λ lists. lists.reads.items ≡ map (room_of view.now) readbacks.now) }
    ensures items { IfOk result (λ lists. lists.history.items ≡ []) }
    ensures room { IfOk result (λ lists. events + vec_len lists.history ≤ vec_capacity lists.history) }
{
    let pending = none_pending(alloc, count)?;
    let reads = rooms(alloc, view, readbacks)?;
    let history = history(alloc, events)?;
    Ok(Lists {
        pending,
        reads,
        history,
    })
}
