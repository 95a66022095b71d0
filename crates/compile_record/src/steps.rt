//! From marks to steps.

ghost use Rattle.std.specs.Prelude.{◌≡◌, ◌+◌, ◌<◌, ◌^◌, length, IfOk, OnOk, Some};
ghost use Rattle.compile_record.specs.Internal.Tables.{Finds, with_step};
ghost use Rattle.compile_record.specs.Marks.{steps_of};

use crate::Marked;
use crate::table::StepTable;
use base::{List, NoMemory};
use compile_timeline::Step;
use std::alloc::Global;

// The item at a step is now the first one with its mark.
fn note(tables: &mut StepTable, script: &[Marked], step: usize) -> Result<(), NoMemory>
    requires few { length script.now < 2 ^ 32 }
    requires step { step < length script.now }
    requires finds { Finds script.now (step + 1) tables.old }
    ensures { OnOk result (Finds script.now step tables.new) }
{
    match &script[step] {
        Marked::Does {
            mark: Some(mark),
            ..
        } => tables.set(*mark, step as u32),
        _ => Ok(()),
    }
}

// For each mark the first step that has it.
fn tables_of(alloc: Global, script: &[Marked]) -> Result<StepTable, NoMemory>
    requires { length script.now < 2 ^ 32 }
    ensures { IfOk result (λ tables. Finds script.now 0 tables) }
{
    let mut tables = StepTable::new(alloc, script.len() as u32);
    let mut step = script.len();
    while step > 0 {
        step -= 1;
        note(&mut tables, script, step)?;
    }
    Ok(tables)
}

fn with_step(tables: &StepTable, one: Marked) -> Step
    ensures { result ≡ with_step tables.now one }
{
    match one {
        Marked::Does { queue, item, .. } => Step::Item { queue, item },
        Marked::Needs { queue, mark } => Step::Need {
            queue,
            step: tables.step_for(mark),
        },
    }
}

/// The steps, where each need names the step of the item that has its mark. The work grows with the length of the list
/// and the greatest numbers in marks.
pub(crate) fn steps_of(alloc: Global, script: List<Marked>) -> Result<List<Step>, NoMemory>
    requires { length script < 2 ^ 32 }
    ensures { IfOk result (λ steps. steps ≡ steps_of script) }
{
    let tables = tables_of(alloc, &script)?;
    let mut steps = List::new(alloc);
    for one in script.into_vec() {
        steps.push(with_step(&tables, one))?;
    }
    Ok(steps)
}
