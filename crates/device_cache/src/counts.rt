//! How many parts name each slot.

ghost use Rattle.std.specs.Prelude.{◌≡◌, ◌<◌, ◌+◌, ℕ, length};
ghost use Rattle.device_cache.specs.Internal.Rows.{changed, CellIn, ChangeIn, RowIn};
ghost use Rattle.device_cache.specs.Places.{cell_at};
ghost use Rattle.device_cache.specs.Internal.Uses.{raised, lowered, part_uses, cell_uses, lines_uses, row_uses, Counts};

use crate::cell::Cell;
use crate::change::{Change, line_after, main_after};
use crate::part::Part;
use crate::row::Row;

// A count at its type's end stays there, so that its slot is never taken for free.
fn raised(count: u32) -> u32
    ensures { result ≡ raised count }
{
    if count == u32::MAX { count } else { count + 1 }
}

fn lowered(count: u32) -> u32
    ensures { result ≡ lowered count }
{
    if count == u32::MAX {
        count
    } else {
        count.saturating_sub(1)
    }
}

fn raise(counts: &mut [u32], part: Part)
    requires { part.slot < length counts.old }
    ensures { (f : ℕ → ℕ) → Counts counts.old f → Counts counts.new (λ slot. f slot + part_uses slot part) }
{
    let slot = part.slot as usize;
    counts[slot] = raised(counts[slot]);
}

fn lower(counts: &mut [u32], part: Part)
    requires { part.slot < length counts.old }
    ensures { (f : ℕ → ℕ) → Counts counts.old (λ slot. f slot + part_uses slot part) → Counts counts.new f }
{
    let slot = part.slot as usize;
    counts[slot] = lowered(counts[slot]);
}

fn raise_cell(counts: &mut [u32], cell: Cell)
    requires { CellIn (length counts.old) cell }
    ensures { (f : ℕ → ℕ) → Counts counts.old f → Counts counts.new (λ slot. f slot + cell_uses slot cell) }
{
    match cell {
        Cell::Empty => {}
        Cell::Clean(part) => raise(counts, part),
        Cell::Dirty(part) => raise(counts, part),
    }
}

fn lower_cell(counts: &mut [u32], cell: Cell)
    requires { CellIn (length counts.old) cell }
    ensures { (f : ℕ → ℕ) → Counts counts.old (λ slot. f slot + cell_uses slot cell) → Counts counts.new f }
{
    match cell {
        Cell::Empty => {}
        Cell::Clean(part) => lower(counts, part),
        Cell::Dirty(part) => lower(counts, part),
    }
}

fn raise_cells(counts: &mut [u32], lines: &[Cell])
    requires { (g : ℕ) → g < length lines.now → CellIn (length counts.old) (cell_at lines.now g) }
    ensures { (f : ℕ → ℕ) → Counts counts.old f → Counts counts.new (λ slot. f slot + lines_uses slot lines.now) }
{
    for k in 0..lines.len() {
        raise_cell(counts, lines[k]);
    }
}

/// The parts of one more row.
pub(crate) fn raise_row(counts: &mut [u32], row: &Row)
    requires { RowIn (length counts.old) row.now }
    ensures { (f : ℕ → ℕ) → Counts counts.old f → Counts counts.new (λ slot. f slot + row_uses slot row.now) }
{
    raise(counts, row.main);
    raise_cells(counts, &row.lines);
}

/// A row changes. What comes is counted before what goes, so that no count falls too low between.
pub(crate) fn recount(counts: &mut [u32], row: &Row, agent: usize, change: Change)
    requires row { RowIn (length counts.old) row.now }
    requires agent { agent < 32 }
    requires change { ChangeIn (length counts.old) change }
    ensures { (f : ℕ → ℕ) → Counts counts.old (λ slot. f slot + row_uses slot row.now) → Counts counts.new (λ slot. f slot + row_uses slot (changed agent change row.now)) }
{
    let main = row.main;
    let line = row.lines[agent];
    raise(counts, main_after(change, main, line));
    raise_cell(counts, line_after(change, main, line));
    lower(counts, main);
    lower_cell(counts, line);
}
