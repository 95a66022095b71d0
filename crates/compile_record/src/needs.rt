//! What a queue needs of others.

ghost use Rattle.std.specs.Prelude.{◌≡◌, ◌++◌, map, OnOk};
ghost use Rattle.compile_record.specs.Internal.PrologueFacts.{Stands};
ghost use Rattle.compile_record.specs.Internal.Wants.{last_number, later_number};
ghost use Rattle.compile_record.specs.Wanted.{last_on, last_elsewhere, wanted_first, wanted_further};
ghost use Rattle.compile_record.specs.declared.mark.Marked.TheVariants.{Needs};
ghost use Rattle.compile_barriers.specs.Prologues.{earlier};
ghost use Rattle.compile_barriers.specs.Unions.{on};

use crate::{Mark, Marked};
use base::{List, NoMemory};
use compile_barriers::{Prologue, PrologueKind};
use compile_groups::{Groups, Use};

fn later_number(found: Option<u32>, one: &Use, queue: usize) -> Option<u32>
    ensures { result ≡ later_number queue found one.now }
{
    if one.queue as usize == queue {
        Some(one.command)
    } else {
        found
    }
}

// The command of the last of the uses on a queue.
fn last_number(uses: &[Use], queue: usize) -> Option<u32>
    ensures { result ≡ last_number (on queue uses.now) }
{
    let mut found = None;
    for one in uses {
        found = later_number(found, one, queue);
    }
    found
}

// Needs of `queue`: the last of the uses on queue p, if that is not the queue `than`.
fn need_last_on(
    script: &mut List<Marked>,
    queue: u32,
    than: u32,
    uses: &[Use],
    p: usize,
) -> Result<(), NoMemory>
    ensures { OnOk result (script.new ≡ script.old ++ map (Needs queue) (last_on than uses.now p)) }
{
    if p == than as usize {
        return Ok(());
    }
    match last_number(uses, p) {
        Some(command) => script.push(Marked::Needs {
            queue,
            mark: Mark::Command(command),
        }),
        None => Ok(()),
    }
}

/// Needs of `queue`: the last of the uses on each queue but `than`.
pub(crate) fn need_elsewhere(
    script: &mut List<Marked>,
    groups: &Groups,
    queue: u32,
    than: u32,
    uses: &[Use],
) -> Result<(), NoMemory>
    ensures { OnOk result (script.new ≡ script.old ++ map (Needs queue) (last_elsewhere groups.now than uses.now)) }
{
    for p in 0..groups.families().len() {
        need_last_on(script, queue, than, uses, p)?;
    }
    Ok(())
}

/// Needs of `queue` before the first member of a group.
pub(crate) fn need_first(
    script: &mut List<Marked>,
    groups: &Groups,
    queue: u32,
    prologue: &Prologue,
) -> Result<(), NoMemory>
    requires { Stands groups.now prologue.now }
    ensures { OnOk result (script.new ≡ script.old ++ map (Needs queue) (wanted_first groups.now prologue.now (earlier groups.now prologue.now.group))) }
{
    match prologue.kind {
        PrologueKind::Barrier => {
            let before = groups.members(prologue.group - 1);
            need_elsewhere(script, groups, queue, prologue.queue, before)
        }
        PrologueKind::Transfer => script.push(Marked::Needs {
            queue,
            mark: Mark::Release(prologue.group - 1),
        }),
        _ => Ok(()),
    }
}

/// The need of `queue` before the first member of a group on it, where another queue has the prologue.
pub(crate) fn need_prologue(
    script: &mut List<Marked>,
    queue: u32,
    prologue: &Prologue,
) -> Result<(), NoMemory>
    ensures { OnOk result (script.new ≡ script.old ++ map (Needs queue) (wanted_further prologue.now)) }
{
    match prologue.kind {
        PrologueKind::Nothing => Ok(()),
        _ => script.push(Marked::Needs {
            queue,
            mark: Mark::Prologue(prologue.group),
        }),
    }
}
