//! Which stages make which accesses.

ghost use Rattle.std.specs.Prelude.{◌≡◌, if◌then◌else◌};
ghost use Rattle.vk.specs.Accesses.{every_stage};
ghost use Rattle.vk.specs.Sets.{meets};
ghost use Rattle.vk.specs.Support.{supported, supports};

use crate::{Accesses, Stages};
use bitflags::Flags;

// The access, where one of its stages is there.
fn part(stages: Stages, own: Stages, access: Accesses) -> Accesses
    ensures { result.0 ≡ (if meets stages.0 own.0 then access.0 else 0) }
{
    if stages.intersects(own) {
        access
    } else {
        Accesses::empty()
    }
}

fn every_stage() -> Stages
    ensures { result.0 ≡ every_stage }
{
    Stages::COLOR_ATTACHMENT_OUTPUT
        .union(Stages::COMPUTE_SHADER)
        .union(Stages::HOST)
        .union(Stages::COPY)
        .union(Stages::CLEAR)
}

// The accesses that one of the stages supports.
fn supported(stages: Stages) -> Accesses
    ensures { result.0 ≡ supported stages.0 }
{
    let shader = Stages::COMPUTE_SHADER;
    let color = Stages::COLOR_ATTACHMENT_OUTPUT;
    let transfer = Stages::COPY.union(Stages::CLEAR);
    let every = every_stage();
    Accesses::empty()
        .union(part(stages, shader, Accesses::SHADER_READ))
        .union(part(stages, shader, Accesses::SHADER_WRITE))
        .union(part(stages, color, Accesses::COLOR_ATTACHMENT_READ))
        .union(part(stages, color, Accesses::COLOR_ATTACHMENT_WRITE))
        .union(part(stages, Stages::COPY, Accesses::TRANSFER_READ))
        .union(part(stages, transfer, Accesses::TRANSFER_WRITE))
        .union(part(stages, Stages::HOST, Accesses::HOST_READ))
        .union(part(stages, every, Accesses::MEMORY_READ))
        .union(part(stages, every, Accesses::MEMORY_WRITE))
        .union(part(stages, shader, Accesses::SHADER_SAMPLED_READ))
        .union(part(stages, shader, Accesses::SHADER_STORAGE_READ))
        .union(part(stages, shader, Accesses::SHADER_STORAGE_WRITE))
}

/// Whether each access is supported by one of the stages, after these are expanded.
pub fn supports(stages: Stages, accesses: Accesses) -> bool
    ensures { result ≡ supports stages.0 accesses.0 }
{
    supported(stages.expand()).contains(accesses)
}
