//! Groups as runs of uses that join.

ghost use Rattle.std.specs.Prelude.{◌≡◌, ◌++◌, [], ◌∷◌, IfOk, OnOk};
ghost use Rattle.compile_groups.specs.Internal.Grown.{added, after_run, joins_last};
ghost use Rattle.compile_groups.specs.Groups.{joins, runs};

use crate::Use;
use crate::joining::joins;
use base::{Family, List, NoMemory};
use std::alloc::Global;
use vk::Sharing;

// The use joins the last one of a group.
fn joins_last(run: &List<Use>, families: &[Family], sharings: &[Sharing], one: Use) -> bool
    ensures { result ≡ joins_last (joins families.now sharings.now) run.now one }
{
    match run.last() {
        Some(last) => joins(families, sharings, *last, one),
        None => false,
    }
}

// A group with one use more, after the others.
fn push_run(runs: &mut List<List<Use>>, run: List<Use>, one: Use) -> Result<(), NoMemory>
    ensures { OnOk result (runs.new ≡ runs.old ++ (run ++ one ∷ []) ∷ []) }
{
    let mut run = run;
    run.push(one)?;
    runs.push(run)
}

// A use after the last group.
fn push_after(
    alloc: Global,
    runs: &mut List<List<Use>>,
    run: List<Use>,
    families: &[Family],
    sharings: &[Sharing],
    one: Use,
) -> Result<(), NoMemory>
    ensures { OnOk result (runs.new ≡ runs.old ++ after_run (joins families.now sharings.now) one run) }
{
    if joins_last(&run, families, sharings, one) {
        return push_run(runs, run, one);
    }
    runs.push(run)?;
    push_run(runs, List::new(alloc), one)
}

// A use after the groups of earlier uses of its unit.
fn push_use(
    alloc: Global,
    runs: &mut List<List<Use>>,
    families: &[Family],
    sharings: &[Sharing],
    one: Use,
) -> Result<(), NoMemory>
    ensures { OnOk result (runs.new ≡ added (joins families.now sharings.now) one runs.old) }
{
    match runs.pop() {
        Some(run) => push_after(alloc, runs, run, families, sharings, one),
        None => push_run(runs, List::new(alloc), one),
    }
}

/// The longest runs of uses of a unit each of which joins the one before it.
pub(crate) fn runs(
    alloc: Global,
    families: &[Family],
    sharings: &[Sharing],
    uses: &[Use],
) -> Result<List<List<Use>>, NoMemory>
    ensures { IfOk result (λ list. list ≡ runs (joins families.now sharings.now) uses.now) }
{
    let mut list = List::new(alloc);
    for one in uses {
        push_use(alloc, &mut list, families, sharings, *one)?;
    }
    Ok(list)
}
