//! Which queue families have which stages.

ghost use Rattle.std.specs.Prelude.{◌≡◌};
ghost use Rattle.vk.specs.Families.{on_family, stages_of, family_number};

use crate::Stages;
use base::Family;
use bitflags::Flags;

/// The number by which masks know a queue family.
pub fn family_number(family: Family) -> u32
    ensures { result ≡ family_number family }
{
    match family {
        Family::Graphics => 0,
        Family::Compute => 1,
        Family::Transfer => 2,
    }
}

// The stages that every family has.
fn common() -> Stages
    ensures { result.0 ≡ stages_of 2 }
{
    Stages::ALL_TRANSFER
        .union(Stages::HOST)
        .union(Stages::ALL_COMMANDS)
        .union(Stages::COPY)
        .union(Stages::CLEAR)
}

fn stages_of(family: u32) -> Stages
    ensures { result.0 ≡ stages_of family }
{
    match family {
        0 => common()
            .union(Stages::COMPUTE_SHADER)
            .union(Stages::COLOR_ATTACHMENT_OUTPUT),
        1 => common().union(Stages::COMPUTE_SHADER),
        2 => common(),
        _ => Stages::empty(),
    }
}

/// Whether a family has all of the stages. Graphics is 0, compute 1 and transfer 2; other numbers have none.
pub fn on_family(stages: Stages, family: u32) -> bool
    ensures { result ≡ on_family stages.0 family }
{
    stages_of(family).contains(stages)
}
