//! A frame's names as numbers.

ghost use Rattle.std.specs.Prelude.{◌≡◌, ◌≤◌, ◌++◌, IfOk, OnOk, length, map};
ghost use Rattle.std.specs.List.{flat_map};
ghost use Rattle.base.specs.Operands.{mapped};
ghost use Rattle.frame.specs.Numbered.{queue_number, unit_writes, numbered_pass, stored_of, uses_of};
ghost use Rattle.frame.specs.Units.{span_of, units_in, unit_of};

use crate::numbered::{NumberedPass, Span, Stored, Uses};
use crate::table::Table;
use crate::unknowns::queue_at;
use crate::{Frame, Pass, Spot, Write};
use base::{List, Name, NoMemory, Op};
use std::alloc::Global;

fn queue_number(frame: &Frame, name: Name) -> u32
    requires { length frame.now.queues ≤ 4 }
    ensures { result ≡ queue_number frame.now name }
{
    match queue_at(frame, name) {
        Some(at) => at as u32,
        None => 0,
    }
}

/// The span of each entry.
pub(crate) fn spans(alloc: Global, table: &Table, spots: &[Spot]) -> Result<List<Span>, NoMemory>
    ensures { IfOk result (λ spans. spans ≡ map (span_of table.now) spots.now) }
{
    let mut spans = List::new(alloc);
    for spot in spots {
        spans.push(table.span_of(*spot))?;
    }
    Ok(spans)
}

fn stored(alloc: Global, table: &Table, writes: &[Write<Spot>]) -> Result<List<Stored>, NoMemory>
    ensures { IfOk result (λ entries. entries ≡ map (stored_of table.now) writes.now) }
{
    let mut entries = List::new(alloc);
    for write in writes {
        entries.push(Stored {
            units: table.span_of(write.what),
            fresh: write.fresh,
        })?;
    }
    Ok(entries)
}

#[tactic(auto, using(crate::proofs::Spans::unit_on, crate::proofs::Spans::units_end))]
fn add_units(units: &mut List<u32>, span: Span) -> Result<(), NoMemory>
    ensures { OnOk result (units.new ≡ units.old ++ units_in span) }
{
    for unit in span.first..span.end {
        units.push(unit)?;
    }
    Ok(())
}

/// All units of these entries.
#[tactic(auto, using(crate::proofs::Spans::span_on))]
pub(crate) fn all_units(alloc: Global, spans: &[Span]) -> Result<List<u32>, NoMemory>
    ensures { IfOk result (λ units. units ≡ flat_map units_in spans.now) }
{
    let mut units = List::new(alloc);
    for span in spans {
        add_units(&mut units, *span)?;
    }
    Ok(units)
}

// One write for each unit of an entry.
#[tactic(auto, using(crate::proofs::Spans::write_on, crate::proofs::Spans::writes_end))]
fn add_writes(writes: &mut List<Write<u32>>, stored: Stored) -> Result<(), NoMemory>
    ensures { OnOk result (writes.new ≡ writes.old ++ unit_writes stored) }
{
    for unit in stored.units.first..stored.units.end {
        writes.push(Write {
            what: unit,
            fresh: stored.fresh,
        })?;
    }
    Ok(())
}

#[tactic(auto, using(crate::proofs::Spans::span_on))]
fn all_writes(alloc: Global, entries: &[Stored]) -> Result<List<Write<u32>>, NoMemory>
    ensures { IfOk result (λ writes. writes ≡ flat_map unit_writes entries.now) }
{
    let mut writes = List::new(alloc);
    for stored in entries {
        add_writes(&mut writes, *stored)?;
    }
    Ok(writes)
}

fn numbered_ops(alloc: Global, table: &Table, ops: &[Op<Spot>]) -> Result<List<Op<u32>>, NoMemory>
    ensures { IfOk result (λ numbers. numbers ≡ map (mapped (unit_of table.now)) ops.now) }
{
    let mut numbers = List::new(alloc);
    for op in ops {
        numbers.push(numbered_op(alloc, table, op)?)?;
    }
    Ok(numbers)
}

#[tactic(auto, using(crate::proofs::Spans::reads_are, crate::proofs::Spans::writes_are))]
fn numbered_pass(
    alloc: Global,
    frame: &Frame,
    table: &Table,
    pass: &Pass,
    reads: &[Span],
    writes: &[Stored],
) -> Result<NumberedPass, NoMemory>
    requires few { length frame.now.queues ≤ 4 }
    requires reads { reads.now ≡ map (span_of table.now) pass.now.reads }
    requires writes { writes.now ≡ map (stored_of table.now) pass.now.writes }
    ensures { IfOk result (λ numbered. numbered ≡ numbered_pass frame.now table.now pass.now) }
{
    Ok(NumberedPass {
        queue: queue_number(frame, pass.queue),
        reads: all_units(alloc, reads)?,
        writes: all_writes(alloc, writes)?,
        ops: numbered_ops(alloc, table, &pass.ops)?,
        side_effect: pass.side_effect,
    })
}

fn uses_of(alloc: Global, frame: &Frame, table: &Table, pass: &Pass) -> Result<Uses, NoMemory>
    requires { length frame.now.queues ≤ 4 }
    ensures { IfOk result (λ uses. uses ≡ uses_of frame.now table.now pass.now) }
{
    let reads = spans(alloc, table, &pass.reads)?;
    let writes = stored(alloc, table, &pass.writes)?;
    Ok(Uses {
        pass: numbered_pass(alloc, frame, table, pass, &reads, &writes)?,
        reads,
        writes,
    })
}

/// All passes, with their entries.
pub(crate) fn all_uses(alloc: Global, frame: &Frame, table: &Table) -> Result<List<Uses>, NoMemory>
    requires { length frame.now.queues ≤ 4 }
    ensures { IfOk result (λ all. all ≡ map (uses_of frame.now table.now) frame.now.passes) }
{
    let mut all = List::new(alloc);
    for pass in frame.passes.as_slice() {
        all.push(uses_of(alloc, frame, table, pass)?)?;
    }
    Ok(all)
}

fn numbered_op(alloc: Global, table: &Table, op: &Op<Spot>) -> Result<Op<u32>, NoMemory>
    ensures { IfOk result (λ numbered. numbered ≡ mapped (unit_of table.now) op.now) }
{
    op.mapped(alloc, |spot: Spot| Ok(table.unit_of(spot)))
}
