//! The table that is measured, and buffers.

ghost use Rattle.std.specs.Prelude.{◌≡◌, ◌≤◌, ◌∷◌, [], length, IfOk};
ghost use Rattle.std.specs.List.{All};
ghost use Rattle.base.specs.Maxima.{max_nodes};
ghost use Rattle.measure.specs.Internal.Tables.{image, row, HoldsImage, HoldsRow};

use crate::ranges::{IMAGE, place};
use base::{List, NoMemory};
use bytes::BytesMut;
use device_cache::{Contents, Segments};
use std::alloc::Global;

const AGENTS: u32 = 2;

/// As many stores as a table may have.
pub const STORES: u32 = 20_000;

// Room for cuts that no call needs, since ranges end where the table is cut.
const SPARE: u32 = 2;

/// A buffer of zeros.
pub fn zeros(alloc: Global, len: u32) -> Result<BytesMut, NoMemory>
    ensures { IfOk result (λ bytes. length bytes.items ≡ len) }
{
    Ok(BytesMut::zeroed(alloc, len as usize)?)
}

/// An image whose bytes differ from place to place.
pub fn picture(alloc: Global) -> Result<BytesMut, NoMemory>
    ensures { IfOk result (λ bytes. length bytes.items ≡ image) }
{
    let mut bytes = vec![in alloc; 0u8; IMAGE as usize]?;
    for (k, byte) in bytes.iter_mut().enumerate() {
        *byte = (k % 251) as u8;
    }
    Ok(BytesMut::from_vec(bytes))
}

fn cuts(alloc: Global, count: u32) -> Result<Vec<(u32, u32)>, NoMemory>
    ensures { IfOk result (λ cuts. All (λ c. (c.0 ≡ 0) × (c.1 ≤ image)) cuts.items) }
{
    let mut cuts = Vec::new(alloc);
    for k in 0..count {
        cuts.push((0, place(k)))?;
    }
    Ok(cuts)
}

fn one(alloc: Global, bytes: BytesMut) -> Result<List<Contents>, NoMemory>
    ensures { IfOk result (λ opening. opening ≡ bytes.items ∷ []) }
{
    let mut opening = List::new(alloc);
    opening.push(Contents::own(bytes))?;
    Ok(opening)
}

/// A memory with a picture before two agents without lines, cut at so many places, with room for so many stores.
pub fn table(alloc: Global, places: u32, stores: u32) -> Result<Segments, NoMemory>
    requires stores { stores ≤ max_nodes }
    ensures holds { IfOk result HoldsImage }
{
    let opening = one(alloc, picture(alloc)?)?;
    let cuts = cuts(alloc, places)?;
    let junk = Contents::filled(0, 0);
    Segments::new(alloc, AGENTS, opening, junk, &cuts, SPARE, stores)
}

// Where pieces of 256 bytes begin.
fn row_cuts(alloc: Global) -> Result<Vec<(u32, u32)>, NoMemory>
    ensures { IfOk result (λ cuts. All (λ c. (c.0 ≡ 0) × (c.1 ≤ row)) cuts.items) }
{
    let mut cuts = Vec::new(alloc);
    for k in 0..16 {
        cuts.push((0, 256 * k))?;
    }
    Ok(cuts)
}

/// A memory of sixteen pieces of 256 zeros, at whose ends the table is cut.
pub fn row(alloc: Global) -> Result<Segments, NoMemory>
    ensures { IfOk result HoldsRow }
{
    let opening = one(alloc, zeros(alloc, 4096)?)?;
    let cuts = row_cuts(alloc)?;
    let junk = Contents::filled(0, 0);
    Segments::new(alloc, AGENTS, opening, junk, &cuts, SPARE, STORES)
}
