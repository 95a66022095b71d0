//! In which stage an access is made.

ghost use Rattle.std.specs.Prelude.{◌≡◌, option_map, IfSome};
ghost use Rattle.check_access_order.specs.Stages.{bit_stage, stage_by, stage_of, IsStage};

use bitflags::Flags;
use check_access::{AccessKind, Agent};
use vk::Stages;

/// The stage of the agent with this bit.
pub fn bit_stage(bit: u16) -> Stages
    ensures stage { result.0 ≡ bit_stage bit }
{
    match bit {
        1 | 2 | 4 => Stages::COMPUTE_SHADER,
        8 | 16 => Stages::COLOR_ATTACHMENT_OUTPUT,
        32 | 64 => Stages::COPY,
        128 => Stages::CLEAR,
        256 => Stages::HOST,
        _ => Stages::empty(),
    }
}

/// The stage of the agent; the host is in no stage of a queue.
pub fn stage_by(agent: Agent) -> Option<Stages>
    ensures stage { option_map (λ s. s.0) result ≡ stage_by agent }
    ensures one { IfSome result (λ s. IsStage s.0) }
{
    match agent {
        Agent::Of { bit, .. } => Some(bit_stage(bit)),
        Agent::Host => None,
    }
}

/// The stage of an access by a command; what other nodes do is in none.
pub fn stage_of(kind: AccessKind) -> Option<Stages>
    ensures stage { option_map (λ s. s.0) result ≡ stage_of kind }
    ensures one { IfSome result (λ s. IsStage s.0) }
{
    match kind {
        AccessKind::Load { agent, .. } | AccessKind::Store { agent, .. } => stage_by(agent),
        _ => None,
    }
}
