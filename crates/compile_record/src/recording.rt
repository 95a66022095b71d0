//! From a frame to its submissions.

ghost use Rattle.std.specs.Prelude.{◌≡◌, length, IfOk};
ghost use Rattle.frame.specs.Numbered.{numbered};
ghost use Rattle.compile_groups.specs.Placed.{placed};
ghost use Rattle.compile_lifetimes.specs.Ordered.{IsOrdered};
ghost use Rattle.compile_heap.specs.Pairs.{has};
ghost use Rattle.compile_record.specs.Internal.Resources.{IsOf};
ghost use Rattle.compile_record.specs.Internal.Laid.{IsLaid};
ghost use Rattle.compile_record.specs.Recorded.{IsCompiled};
ghost use Rattle.frame_cull.specs.Culled.{AreKept};
ghost use Rattle.frame_cull.specs.Versions.{numbers_of};

use crate::compiled::Compiled;
use crate::whole_program::program_of;
use base::NoMemory;
use compile_groups::{Groups, groups_of};
use compile_heap::{Pairs, Placement, place};
use compile_lifetimes::ordered;
use frame::ValidFrame;
use frame_cull::{Kept, Versions, cull, versions_of};
use program::Program;
use std::alloc::Global;

// One stage after another, since a function that holds several owned values over calls that may fail is dear to prove.

// The least places for these pairs, and the submissions over them.
#[tactic(auto, using(crate::proofs::Compiling::as_many))]
fn laid(
    alloc: Global,
    frame: &ValidFrame,
    groups: &Groups,
    ordered: &Pairs,
) -> Result<(Placement, Program), NoMemory>
    requires of { IsOf (numbered frame.now) groups.now }
    requires count { ordered.now.count ≡ length (placed groups.now) }
    requires ordered { IsOrdered groups.now (has ordered.now) }
    ensures { IfOk result (λ made. IsLaid (numbered frame.now) groups.now made.0 made.1) }
{
    let placement = place(alloc, groups.sizes(), ordered)?;
    let program = program_of(alloc, frame, groups, ordered, &placement)?;
    Ok((placement, program))
}

fn of_groups(
    alloc: Global,
    frame: &ValidFrame,
    groups: &Groups,
) -> Result<(Placement, Program), NoMemory>
    requires { IsOf (numbered frame.now) groups.now }
    ensures { IfOk result (λ made. IsLaid (numbered frame.now) groups.now made.0 made.1) }
{
    let ordered = ordered(alloc, groups)?;
    laid(alloc, frame, groups, &ordered)
}

#[tactic(auto, using(crate::proofs::Compiling::of_grouping))]
fn of_kept(
    alloc: Global,
    frame: &ValidFrame,
    versions: &Versions,
    kept: &Kept,
) -> Result<(Placement, Program), NoMemory>
    requires versions { versions.now ≡ numbers_of (numbered frame.now) }
    requires kept { length kept.now ≡ length (numbered frame.now).passes }
    ensures { IfOk result (λ made. IsCompiled (numbered frame.now) (record { program = made.1; kept = kept.now; placement = made.0 })) }
{
    let groups = groups_of(alloc, frame, versions, kept)?;
    of_groups(alloc, frame, &groups)
}

fn of_versions(
    alloc: Global,
    frame: &ValidFrame,
    versions: &Versions,
) -> Result<Compiled<Program>, NoMemory>
    requires { versions.now ≡ numbers_of (numbered frame.now) }
    ensures kept { IfOk result (λ made. AreKept (numbered frame.now) made.kept) }
    ensures compiled { IfOk result (IsCompiled (numbered frame.now)) }
{
    let kept = cull(alloc, frame, versions)?;
    let (placement, program) = of_kept(alloc, frame, versions, &kept)?;
    Ok(Compiled {
        program,
        kept,
        placement,
    })
}

/// The submissions of a frame: what its kept passes do, and the barriers, transfers, waits and signals that this needs. Want
/// of memory is its one refusal.
pub fn record(alloc: Global, frame: &ValidFrame) -> Result<Compiled<Program>, NoMemory>
    ensures kept { IfOk result (λ made. AreKept (numbered frame.now) made.kept) }
    ensures compiled { IfOk result (IsCompiled (numbered frame.now)) }
{
    let versions = versions_of(alloc, frame)?;
    of_versions(alloc, frame, &versions)
}
