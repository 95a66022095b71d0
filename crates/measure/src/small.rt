//! Small pieces, stored to from buffers that are all made before.

ghost use Rattle.std.specs.Prelude.{◌≤◌, ◌+◌, OnOk};
ghost use Rattle.measure.specs.Internal.Tables.{row, HoldsRow};

use crate::stopped::Stopped;
use crate::table::{STORES, row, zeros};
use base::NoMemory;
use bytes::BytesMut;
use device_cache::{Contents, Segments};
use std::alloc::Global;

/// What becomes of the buffers.
#[derive(Clone, Copy, Debug, PartialEq, Eq)]
pub enum Small {
    /// They are let go.
    Make,
    Put,
    /// Each is put, and then it is written back.
    PutWrite,
}

// Pieces lie end to end in a memory.
const PIECES: u32 = 16;

const LEN: u32 = 256;

/// The word's action, as `small-put`.
pub fn small_of(word: &str) -> Option<Small> {
    match word {
        "small-make" => Some(Small::Make),
        "small-put" => Some(Small::Put),
        "small-put-write" => Some(Small::PutWrite),
        _ => None,
    }
}

fn buffers(alloc: Global) -> Result<Vec<BytesMut>, NoMemory> {
    let mut buffers = Vec::new(alloc);
    for _k in 0..STORES {
        buffers.push(zeros(alloc, LEN)?)?;
    }
    Ok(buffers)
}

fn put(table: &mut Segments, start: u32, bytes: BytesMut) -> Result<(), Stopped>
    requires holds { HoldsRow table.old }
    requires within { start + LEN ≤ row }
    ensures holds { OnOk result (HoldsRow table.new) }
{
    if bytes.len() != LEN as usize || table.stores_left() == 0 || table.cuts_left() < 2 {
        return Err(Stopped);
    }
    table.put(0, 0, start, Contents::own(bytes));
    Ok(())
}

fn write(table: &mut Segments, start: u32) -> Result<(), Stopped>
    requires holds { HoldsRow table.old }
    requires within { start + LEN ≤ row }
    ensures holds { OnOk result (HoldsRow table.new) }
{
    if table.cuts_left() < 2 {
        return Err(Stopped);
    }
    table.write_back(0, 0, start, LEN);
    Ok(())
}

// The last of the buffers goes to the k-th piece, round and round.
fn put_last(
    table: &mut Segments,
    buffers: &mut Vec<BytesMut>,
    k: u32,
    writes: bool,
) -> Result<(), Stopped>
    requires holds { HoldsRow table.old }
    ensures holds { OnOk result (HoldsRow table.new) }
{
    let start = k % PIECES * LEN;
    let Some(bytes) = buffers.pop() else {
        return Err(Stopped);
    };
    put(table, start, bytes)?;
    if writes { write(table, start) } else { Ok(()) }
}

fn put_all(table: &mut Segments, buffers: &mut Vec<BytesMut>, writes: bool) -> Result<(), Stopped>
    requires { HoldsRow table.old }
{
    for k in 0..STORES {
        put_last(table, buffers, k, writes)?;
    }
    Ok(())
}

// How many buffers are let go.
fn left(alloc: Global, small: Small, table: &mut Segments) -> Result<u64, Stopped>
    requires { HoldsRow table.old }
{
    let mut buffers = buffers(alloc)?;
    if small != Small::Make {
        put_all(table, &mut buffers, small == Small::PutWrite)?;
    }
    Ok(buffers.len() as u64)
}

fn round(alloc: Global, small: Small) -> Result<u64, Stopped> {
    let mut table = row(alloc)?;
    left(alloc, small, &mut table)
}

/// As many buffers as a table may have stores, so many times. The answer is how many were let go.
pub fn run_small(alloc: Global, small: Small, times: u32) -> Result<u64, Stopped> {
    let mut sum = 0u64;
    for _time in 0..times {
        sum = sum.wrapping_add(round(alloc, small)?);
    }
    Ok(sum)
}
