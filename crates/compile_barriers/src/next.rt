//! What stands between two groups of a unit.

ghost use Rattle.std.specs.Prelude.{◌≡◌, ◌<◌, [], length};
ghost use Rattle.compile_groups.specs.Groups.{shares};
ghost use Rattle.compile_barriers.specs.Prologues.{first, next_kind, prologue_between};

use crate::masks::{barrier_masks, entry_masks, release_masks};
use crate::{Prologue, PrologueKind};
use compile_groups::{Groups, Use};
use vk::family_number;

// Whether two queues may both use a unit without a transfer of ownership.
fn shares(groups: &Groups, unit: u32, p: u32, q: u32) -> bool
    requires unit { unit < length groups.now.sharings }
    requires p { p < length groups.now.families }
    requires q { q < length groups.now.families }
    ensures { result ≡ shares groups.now.families groups.now.sharings unit p q }
{
    groups.sharing(unit).is_shared()
        || family_number(groups.family(p)) == family_number(groups.family(q))
}

/// Between the uses of a group and those of the next one of the same unit.
pub(crate) fn next_prologue(groups: &Groups, g: u32, before: &[Use], after: &[Use]) -> Prologue
    requires before { 0 < length before.now }
    requires after { 0 < length after.now }
    requires unit { (first after.now).unit < length groups.now.sharings }
    requires p { (first before.now).queue < length groups.now.families }
    requires q { (first after.now).queue < length groups.now.families }
    ensures { result ≡ prologue_between (next_kind groups.now before.now after.now) g before.now [] after.now }
{
    let queue = after[0].queue;
    if shares(groups, after[0].unit, before[0].queue, queue) {
        return Prologue {
            queue,
            group: g,
            kind: PrologueKind::Barrier,
            masks: barrier_masks(before, after, queue),
            release: None,
            release_queue: None,
        };
    }
    let from = before[before.len() - 1].queue;
    Prologue {
        queue,
        group: g,
        kind: PrologueKind::Transfer,
        masks: entry_masks(after, queue),
        release: Some(release_masks(before, from)),
        release_queue: Some(from),
    }
}
