//! What uses on one queue do together.

ghost use Rattle.std.specs.Prelude.{◌≡◌, if◌then◌else◌, ◌==◌};
ghost use Rattle.compile_barriers.specs.Internal.Joints.{joined};
ghost use Rattle.compile_barriers.specs.Unions.{joint_on, is_elsewhere};

use compile_groups::Use;
use vk::{Accesses, Stages};

/// Stages and accesses of several uses, and those of the accesses that write.
#[derive(Clone, Copy, Debug, PartialEq, Eq)]
pub(crate) struct Joint {
    pub(crate) stages: Stages,
    pub(crate) accesses: Accesses,
    pub(crate) writes: Accesses,
}

// With one use more.
fn joined(joint: Joint, one: &Use) -> Joint
    ensures { result ≡ joined joint one.now }
{
    Joint {
        stages: Stages(joint.stages.0 | one.stage.0),
        accesses: Accesses(joint.accesses.0 | one.accesses.0),
        writes: Accesses(joint.writes.0 | one.writes.0),
    }
}

// With one use more, if it is on the queue.
fn joined_on(joint: Joint, one: &Use, queue: u32) -> Joint
    ensures { result ≡ (if one.now.queue == queue then joined joint one.now else joint) }
{
    if one.queue == queue {
        joined(joint, one)
    } else {
        joint
    }
}

/// The union of those on a queue.
pub(crate) fn joint_on(uses: &[Use], queue: u32) -> Joint
    ensures { result ≡ joint_on uses.now queue }
{
    let mut joint = Joint {
        stages: Stages(0),
        accesses: Accesses(0),
        writes: Accesses(0),
    };
    for one in uses {
        joint = joined_on(joint, one, queue);
    }
    joint
}

/// Whether one of them is on another queue.
pub(crate) fn is_elsewhere(uses: &[Use], queue: u32) -> bool
    ensures { result ≡ is_elsewhere uses.now queue }
{
    uses.iter().any(|one| one.queue != queue)
}
