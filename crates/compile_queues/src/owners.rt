//! Whose queue each command is on.

ghost use Rattle.std.specs.Prelude.{◌≡◌, ◌<◌, ◌++◌, Some, length, map, replicate, IfOk, OnOk};
ghost use Rattle.std.specs.List.{All};
ghost use Rattle.compile_queues.specs.Internal.Work.{export_owner, kept_owner, kept_owners, owners, queue_by};
ghost use Rattle.frame.specs.Numbered.{numbered};
ghost use Rattle.frame_cull.specs.Versions.{numbers_of, pass_at};

use base::{List, NoMemory};
use frame::ValidFrame;
use frame_cull::{Kept, Versions};
use std::alloc::Global;

// A pass, once for each of so many operations.
#[tactic(auto, using(crate::proofs::Walking::times_more, crate::proofs::Walking::times_none))]
fn push_times(list: &mut List<Option<u32>>, pass: u32, times: usize) -> Result<(), NoMemory>
    ensures { OnOk result (list.new ≡ list.old ++ replicate times (Some pass)) }
{
    for _op in 0..times {
        list.push(Some(pass))?;
    }
    Ok(())
}

// That of the operations of a pass, if it is kept.
#[tactic(auto, using(crate::proofs::Walking::owner_kept, crate::proofs::Walking::owner_left))]
fn push_kept(
    list: &mut List<Option<u32>>,
    frame: &ValidFrame,
    kept: &Kept,
    pass: u32,
) -> Result<(), NoMemory>
    requires pass { pass < length (numbered frame.now).passes }
    requires kept { pass < length kept.now }
    ensures { OnOk result (list.new ≡ list.old ++ kept_owner kept.now pass (pass_at (numbered frame.now) pass)) }
{
    if kept.contains(pass) {
        push_times(list, pass, frame.ops(pass).len())?;
    }
    Ok(())
}

#[tactic(auto, using(crate::proofs::Walking::owner_more, crate::proofs::Walking::owners_all))]
fn kept_owners(
    alloc: Global,
    frame: &ValidFrame,
    kept: &Kept,
) -> Result<List<Option<u32>>, NoMemory>
    requires { length kept.now ≡ length (numbered frame.now).passes }
    ensures { IfOk result (λ list. list ≡ kept_owners 0 (numbered frame.now).passes kept.now) }
{
    let mut list = List::new(alloc);
    for pass in 0..frame.pass_count() {
        push_kept(&mut list, frame, kept, pass)?;
    }
    Ok(list)
}

// The pass whose queue the copy of a unit is on.
#[tactic(auto, using(crate::proofs::Walking::writer_is))]
fn export_owner(frame: &ValidFrame, versions: &Versions, unit: u32) -> Option<u32>
    requires versions { versions.now ≡ numbers_of (numbered frame.now) }
    requires unit { unit < length (numbered frame.now).units }
    ensures { result ≡ export_owner (numbered frame.now) unit }
{
    versions.last_writer(unit)
}

fn push_exports(
    list: &mut List<Option<u32>>,
    frame: &ValidFrame,
    versions: &Versions,
    exports: &[u32],
) -> Result<(), NoMemory>
    requires versions { versions.now ≡ numbers_of (numbered frame.now) }
    requires within { All (λ unit. unit < length (numbered frame.now).units) exports.now }
    ensures { OnOk result (list.new ≡ list.old ++ map (export_owner (numbered frame.now)) exports.now) }
{
    for unit in exports {
        list.push(export_owner(frame, versions, *unit))?;
    }
    Ok(())
}

/// For each command the pass on whose queue it is: its own, or the one that makes the last version of what it copies out.
pub(crate) fn owners(
    alloc: Global,
    frame: &ValidFrame,
    versions: &Versions,
    kept: &Kept,
) -> Result<List<Option<u32>>, NoMemory>
    requires versions { versions.now ≡ numbers_of (numbered frame.now) }
    requires kept { length kept.now ≡ length (numbered frame.now).passes }
    ensures { IfOk result (λ list. list ≡ owners (numbered frame.now) kept.now) }
{
    let exports = frame.exports();
    let mut list = kept_owners(alloc, frame, kept)?;
    push_exports(&mut list, frame, versions, exports)?;
    Ok(list)
}

// Queue 0 where there is no pass.
fn queue_by(queues: &[u32], owner: Option<u32>) -> u32
    ensures { result ≡ queue_by queues.now owner }
{
    match owner {
        Some(pass) => match queues.get(pass as usize) {
            Some(queue) => *queue,
            None => 0,
        },
        None => 0,
    }
}

/// The queue of each command, where passes are on these queues.
pub(crate) fn command_queues(
    alloc: Global,
    owners: &[Option<u32>],
    queues: &[u32],
) -> Result<List<u32>, NoMemory>
    ensures { IfOk result (λ list. list ≡ map (queue_by queues.now) owners.now) }
{
    let mut list = List::new(alloc);
    for owner in owners {
        list.push(queue_by(queues, *owner))?;
    }
    Ok(list)
}
