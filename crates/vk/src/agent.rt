//! Who holds lines of memory.

ghost use Rattle.std.specs.Prelude.{◌≡◌, ◌&&◌, if◌then◌else◌};
ghost use Rattle.vk.specs.Agents.{agents};

use crate::{Accesses, Stages};
use bitflags::Flags;

/// The bit of the host among agents.
pub const HOST_AGENT: u16 = 256;

// The bit of an agent, where its stage and its access are there.
fn part(has_stage: bool, has_access: bool, bit: u16) -> u16
    ensures { result ≡ (if has_stage && has_access then bit else 0) }
{
    if has_stage && has_access { bit } else { 0 }
}

/// The agents of a queue with these stages and accesses, after both are expanded. Bit k stands for agent k, and
/// the bit `HOST_AGENT` for the host.
pub fn agents(stages: Stages, accesses: Accesses) -> u16
    ensures { result ≡ agents stages.0 accesses.0 }
{
    let stages = stages.expand();
    let accesses = accesses.expand();
    let shader = stages.contains(Stages::COMPUTE_SHADER);
    let color = stages.contains(Stages::COLOR_ATTACHMENT_OUTPUT);
    let copy = stages.contains(Stages::COPY);
    let clear = stages.contains(Stages::CLEAR);
    let host = stages.contains(Stages::HOST);
    let store = accesses.contains(Accesses::TRANSFER_WRITE);
    part(shader, accesses.contains(Accesses::SHADER_SAMPLED_READ), 1)
        | part(shader, accesses.contains(Accesses::SHADER_STORAGE_READ), 2)
        | part(shader, accesses.contains(Accesses::SHADER_STORAGE_WRITE), 4)
        | part(color, accesses.contains(Accesses::COLOR_ATTACHMENT_READ), 8)
        | part(
            color,
            accesses.contains(Accesses::COLOR_ATTACHMENT_WRITE),
            16,
        )
        | part(copy, accesses.contains(Accesses::TRANSFER_READ), 32)
        | part(copy, store, 64)
        | part(clear, store, 128)
        | part(host, accesses.contains(Accesses::HOST_READ), HOST_AGENT)
}
