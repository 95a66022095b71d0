//! Masks of what stands round groups.

ghost use Rattle.std.specs.Prelude.{◌≡◌};
ghost use Rattle.compile_barriers.specs.Masks.{barrier_masks, release_masks, entry_masks};

use crate::joint::{is_elsewhere, joint_on};
use compile_groups::Use;
use vk::{Accesses, Masks, Stages};

/// Of a barrier between uses on a queue.
pub(crate) fn barrier_masks(before: &[Use], after: &[Use], queue: u32) -> Masks
    ensures { result ≡ barrier_masks before.now after.now queue }
{
    let done = joint_on(before, queue);
    let next = joint_on(after, queue);
    let waited = if is_elsewhere(before, queue) {
        next.stages.0
    } else {
        0
    };
    Masks {
        src_stages: Stages(done.stages.0 | waited),
        src_accesses: done.writes,
        dst_stages: next.stages,
        dst_accesses: next.accesses,
    }
}

/// Of a release after uses on a queue.
pub(crate) fn release_masks(before: &[Use], queue: u32) -> Masks
    ensures { result ≡ release_masks before.now queue }
{
    let last = joint_on(before, queue);
    Masks {
        src_stages: last.stages,
        src_accesses: last.writes,
        dst_stages: last.stages,
        dst_accesses: Accesses(0),
    }
}

/// Of an acquire, or a barrier out of `UNDEFINED`, before uses on a queue.
pub(crate) fn entry_masks(after: &[Use], queue: u32) -> Masks
    ensures { result ≡ entry_masks after.now queue }
{
    let next = joint_on(after, queue);
    Masks {
        src_stages: next.stages,
        src_accesses: Accesses(0),
        dst_stages: next.stages,
        dst_accesses: next.accesses,
    }
}
