//! A call is done again and again.

ghost use Rattle.std.specs.Prelude.{◌≡◌, length, OnOk};
ghost use Rattle.measure.specs.Internal.Tables.{image, HoldsImage};

use crate::call::{Call, act, put, write_back};
use crate::ranges::{PLACES, Ranges};
use crate::stopped::Stopped;
use crate::table::{STORES, picture, table};
use device_cache::Segments;
use std::alloc::Global;

// So many stores are made first, by two agents in turn.
const BEFORE: u32 = 32;

// Lines of both agents, dirty ones and clean ones.
fn use_first(alloc: Global, table: &mut Segments, ranges: &mut Ranges) -> Result<(), Stopped>
    requires holds { HoldsImage table.old }
    ensures holds { OnOk result (HoldsImage table.new) }
{
    for k in 0..BEFORE {
        let range = ranges.next();
        put(alloc, table, k % 2, range)?;
        if k % 4 < 2 {
            write_back(table, k % 2, range)?;
        }
    }
    Ok(())
}

fn sum(bytes: &[u8]) -> u64 {
    let mut sum = 0u64;
    for byte in bytes {
        sum = sum.wrapping_add(u64::from(*byte));
    }
    sum
}

fn act_all(
    alloc: Global,
    call: Call,
    times: u32,
    table: &mut Segments,
    ranges: &mut Ranges,
    from: &[u8],
    out: &mut [u8],
) -> Result<(), Stopped>
    requires holds { HoldsImage table.old }
    requires from { length from.now ≡ image }
    requires out { length out.old ≡ image }
{
    for _time in 0..times {
        act(alloc, call.action, table, from, ranges.next(), out)?;
    }
    Ok(())
}

// The sum of what was loaded.
fn acted(
    alloc: Global,
    call: Call,
    times: u32,
    table: &mut Segments,
    ranges: &mut Ranges,
    from: &[u8],
) -> Result<u64, Stopped>
    requires holds { HoldsImage table.old }
    requires from { length from.now ≡ image }
{
    let mut out = picture(alloc)?;
    act_all(alloc, call, times, table, ranges, from, out.as_mut_slice())?;
    Ok(sum(out.as_slice()))
}

fn repeat_on(alloc: Global, call: Call, times: u32, table: &mut Segments) -> Result<u64, Stopped>
    requires { HoldsImage table.old }
{
    let mut ranges = Ranges::new(call.random);
    use_first(alloc, table, &mut ranges)?;
    let from = picture(alloc)?;
    acted(alloc, call, times, table, &mut ranges, from.as_slice())
}

/// Does a call so many times, each on the next range. The answer is a sum of the bytes that were loaded.
pub fn repeat(alloc: Global, call: Call, times: u32) -> Result<u64, Stopped> {
    let mut table = table(alloc, if call.random { PLACES } else { 0 }, STORES)?;
    repeat_on(alloc, call, times, &mut table)
}
