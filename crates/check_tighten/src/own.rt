//! The stages of a wait that its queue has.

ghost use Rattle.std.specs.Prelude.{◌≡◌, ◌<◌, slice_get, Some};
ghost use Rattle.vk.specs.Stages.{expand};
ghost use Rattle.check_tighten.specs.Own.{fitted, own_part, own_stages, single_stages, with_stages, without_stage};

use base::Family;
use bitflags::Flags;
use program::WaitFor;
use vk::{Stages, family_number, on_family};

/// How many stages stand for themselves alone.
pub const SINGLE_STAGES: u32 = 5;

/// The stage with the number `i` among those that stand for themselves alone, in the order of their bits.
pub fn single_stage(i: u32) -> Stages
    requires { i < 5 }
    ensures { slice_get single_stages i ≡ Some result.0 }
{
    match i {
        0 => Stages::COLOR_ATTACHMENT_OUTPUT,
        1 => Stages::COMPUTE_SHADER,
        2 => Stages::HOST,
        3 => Stages::COPY,
        _ => Stages::CLEAR,
    }
}

fn own_part(family: Family, stages: Stages, stage: Stages) -> Stages
    ensures { result.0 ≡ own_part family stages.0 stage.0 }
{
    if stages.expand().contains(stage) && on_family(stage, family_number(family)) {
        stage
    } else {
        Stages::empty()
    }
}

/// The stages that these stand for, of those that the queues of a family have.
pub fn own_stages(family: Family, stages: Stages) -> Stages
    ensures { result.0 ≡ own_stages family stages.0 }
{
    Stages::empty()
        .union(own_part(family, stages, Stages::COLOR_ATTACHMENT_OUTPUT))
        .union(own_part(family, stages, Stages::COMPUTE_SHADER))
        .union(own_part(family, stages, Stages::HOST))
        .union(own_part(family, stages, Stages::COPY))
        .union(own_part(family, stages, Stages::CLEAR))
}

fn with_stages(wait: WaitFor, stages: Stages) -> WaitFor
    ensures { result ≡ with_stages stages.0 wait }
{
    WaitFor {
        queue: wait.queue,
        value: wait.value,
        stages,
    }
}

/// The wait with its own stages alone.
pub fn fitted(family: Family, wait: WaitFor) -> WaitFor
    ensures { result ≡ fitted family wait }
{
    with_stages(wait, own_stages(family, wait.stages))
}

/// The wait with its own stages but one.
pub fn without_stage(family: Family, stage: Stages, wait: WaitFor) -> WaitFor
    ensures { result ≡ without_stage family stage.0 wait }
{
    with_stages(wait, own_stages(family, wait.stages).difference(stage))
}
