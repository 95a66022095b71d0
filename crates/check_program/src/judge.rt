//! Programs are judged.

ghost use Rattle.std.specs.Prelude.{◌≡◌, IfOk};
ghost use Rattle.check_program.specs.Internal.Decided.{Decides, Judges};
ghost use Rattle.check_order.specs.Orders.{IsLeast};
ghost use Rattle.check_access_order.specs.Ways.{HasWays};
ghost use Rattle.check_access.specs.ValidView.{Listed, ValidView};
ghost use Rattle.check_access.specs.Views.{view_of};
ghost use Rattle.check_table.specs.Programs.{TableOf};

use crate::Hazard;
use base::NoMemory;
use check_access::{NodeAccess, View, node_accesses_of, view_of};
use check_access_order::order_laws;
use check_order::{Drain, drain_of};
use check_state::{first_load_hazard, first_state_hazard};
use check_sync::first_flaw;
use check_table::{OrderTable, program_table};
use program::ValidProgram;
use std::alloc::Global;

// The first hazard of accesses in an order: of two accesses, else of what is found, else of bytes.
fn first_in_accesses(
    alloc: Global,
    view: &View,
    table: &OrderTable,
    accesses: &[NodeAccess],
) -> Result<Option<Hazard>, NoMemory>
    requires shaped { ValidView view.now }
    requires ways { HasWays view.now }
    requires table { TableOf view.now table.now }
    requires listed { Listed view.now accesses.now }
    ensures { IfOk result (λ found. Decides view.now accesses.now found) }
{
    if let Some(sync_hazard) = first_flaw(alloc, view, table, accesses)? {
        return Ok(Some(Hazard::Sync(sync_hazard)));
    }
    if let Some(state_hazard) = first_state_hazard(alloc, view, accesses)? {
        return Ok(Some(Hazard::State(state_hazard)));
    }
    match first_load_hazard(alloc, view, accesses)? {
        Some(load_hazard) => Ok(Some(Hazard::Load(load_hazard))),
        None => Ok(None),
    }
}

// The first hazard in the least order of the nodes.
fn first_in_order(
    alloc: Global,
    program: &ValidProgram,
    view: &View,
    order: &[u32],
) -> Result<Option<Hazard>, NoMemory>
    requires view { view.now ≡ view_of program.now }
    requires shaped { ValidView view.now }
    requires order { IsLeast view.now.nodes order.now }
    ensures { IfOk result (Judges program.now) }
{
    order_laws();
    let table = program_table(alloc, program, view.edges(), order)?;
    let accesses = node_accesses_of(alloc, view, order)?;
    first_in_accesses(alloc, view, &table, accesses.as_slice())
}

/// The first hazard of a program, or none where it is sound.
pub fn first_hazard(alloc: Global, program: &ValidProgram) -> Result<Option<Hazard>, NoMemory>
    ensures { IfOk result (Judges program.now) }
{
    let view = view_of(alloc, program)?;
    match drain_of(alloc, program, view.edges())? {
        Drain::Whole(order) => first_in_order(alloc, program, &view, order.as_slice()),
        Drain::Stuck { queue, node } => Ok(Some(Hazard::Stuck { queue, node })),
    }
}
