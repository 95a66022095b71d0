//! What is done to a range.

ghost use Rattle.std.specs.Prelude.{◌≡◌, ◌<◌, ◌≤◌, ◌+◌, length, OnOk};
ghost use Rattle.measure.specs.Internal.Tables.{image, HoldsImage};

use crate::ranges::Range;
use crate::stopped::Stopped;
use crate::table::zeros;
use device_cache::{Contents, Segments};
use std::alloc::Global;

/// A call of the table, or what it is compared with.
#[derive(Clone, Copy, Debug, PartialEq, Eq)]
pub enum Action {
    /// Bytes of one buffer go to another.
    Copy,
    Load,
    /// A buffer of zeros is made and let go.
    Make,
    /// A buffer of zeros is made and put.
    Put,
    /// The same, and then it is written back.
    PutWrite,
    Write,
    /// Clean lines go, and then the range is filled.
    Fill,
}

/// An action, on the whole image or on random ranges.
#[derive(Clone, Copy, Debug, PartialEq, Eq)]
pub struct Call {
    pub action: Action,
    pub random: bool,
}

const ACTIONS: [(&str, Action); 7] = [
    ("copy", Action::Copy),
    ("load", Action::Load),
    ("make", Action::Make),
    ("put", Action::Put),
    ("put-write", Action::PutWrite),
    ("write", Action::Write),
    ("fill", Action::Fill),
];

fn action_of(word: &str) -> Option<Action> {
    for row in &ACTIONS {
        if row.0 == word {
            return Some(row.1);
        }
    }
    None
}

/// The call of a word, as `load` or `random-load`.
pub fn call_of(word: &str) -> Option<Call> {
    let (name, random) = match word.strip_prefix("random-") {
        Some(name) => (name, true),
        None => (word, false),
    };
    let action = action_of(name)?;
    Some(Call { action, random })
}

/// The agent stores zeros.
pub fn put(alloc: Global, table: &mut Segments, agent: u32, range: Range) -> Result<(), Stopped>
    requires holds { HoldsImage table.old }
    requires agent { agent < 2 }
    requires within { range.start + range.len ≤ image }
    ensures holds { OnOk result (HoldsImage table.new) }
{
    if table.stores_left() == 0 || table.cuts_left() < 2 {
        return Err(Stopped);
    }
    let bytes = zeros(alloc, range.len)?;
    table.put(agent, 0, range.start, Contents::own(bytes));
    Ok(())
}

/// The agent's lines are written back.
pub fn write_back(table: &mut Segments, agent: u32, range: Range) -> Result<(), Stopped>
    requires holds { HoldsImage table.old }
    requires agent { agent < 2 }
    requires within { range.start + range.len ≤ image }
    ensures holds { OnOk result (HoldsImage table.new) }
{
    if table.cuts_left() < 2 {
        return Err(Stopped);
    }
    table.write_back(agent, 0, range.start, range.len);
    Ok(())
}

// The agent's clean lines go away, and where it has no line it gets one.
fn refill(table: &mut Segments, agent: u32, range: Range) -> Result<(), Stopped>
    requires holds { HoldsImage table.old }
    requires agent { agent < 2 }
    requires within { range.start + range.len ≤ image }
    ensures holds { OnOk result (HoldsImage table.new) }
{
    if table.cuts_left() < 4 {
        return Err(Stopped);
    }
    table.drop_clean(agent, 0, range.start, range.len);
    table.fill(agent, 0, range.start, range.len);
    Ok(())
}

fn copy(from: &[u8], range: Range, out: &mut [u8])
    requires from { length from.now ≡ image }
    requires out { length out.old ≡ image }
    requires within { range.start + range.len ≤ image }
{
    let start = range.start as usize;
    let len = range.len as usize;
    out[..len].copy_from_slice(&from[start..start + len]);
}

fn load(table: &Segments, range: Range, out: &mut [u8])
    requires holds { HoldsImage table.now }
    requires out { length out.old ≡ image }
    requires within { range.start + range.len ≤ image }
{
    table.load(0, 0, range.start, &mut out[..range.len as usize]);
}

/// Does an action once, as agent 0.
pub fn act(
    alloc: Global,
    action: Action,
    table: &mut Segments,
    from: &[u8],
    range: Range,
    out: &mut [u8],
) -> Result<(), Stopped>
    requires holds { HoldsImage table.old }
    requires from { length from.now ≡ image }
    requires out { length out.old ≡ image }
    requires within { range.start + range.len ≤ image }
    ensures holds { OnOk result (HoldsImage table.new) }
{
    match action {
        Action::Copy => copy(from, range, out),
        Action::Load => load(table, range, out),
        Action::Make => {
            zeros(alloc, range.len)?;
        }
        Action::Put => put(alloc, table, 0, range)?,
        Action::PutWrite => {
            put(alloc, table, 0, range)?;
            write_back(table, 0, range)?;
        }
        Action::Write => write_back(table, 0, range)?,
        Action::Fill => refill(table, 0, range)?,
    }
    Ok(())
}
