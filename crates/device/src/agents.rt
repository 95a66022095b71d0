//! Agents by number, eight for each queue, and what commands do to memory.

ghost use Rattle.std.specs.Prelude.{◌≡◌, ◌<◌, ◌*◌, ◌+◌, ◌==◌, ◌&&◌, ◌^◌, length, option_copied};
ghost use Rattle.std.specs.List.{find};
ghost use Rattle.device_model.specs.Agents.{agent_at, agent_number, agent_of};
ghost use Rattle.device_model.specs.Steps.{store_of};
ghost use Rattle.check_access.specs.AccessKinds.{changes};
ghost use Rattle.check_access.specs.Views.{has_agent};

use base::List;
use check_access::{Access, AccessKind, Agent, View};

fn agent_number(agent: Agent) -> u32
    requires { agent_number agent < 2 ^ 32 }
    ensures { result ≡ agent_number agent }
{
    match agent {
        Agent::Of { queue, bit } => 8 * queue + bit.trailing_zeros(),
        Agent::Host => 0,
    }
}

/// The number of the agent that loads or stores.
pub(crate) fn agent_of(kind: AccessKind) -> u32
    requires { agent_of kind < 2 ^ 32 }
    ensures { result ≡ agent_of kind }
{
    match kind {
        AccessKind::Load { agent, .. } | AccessKind::Store { agent, .. } => agent_number(agent),
        _ => 0,
    }
}

/// Whether a set of agents of a queue has the agent with the number.
pub(crate) fn has_agent(queue: u32, set: u16, agent: u32) -> bool
    ensures { result ≡ has_agent queue set (agent_at agent) }
{
    agent / 8 == queue && set & (1 << (agent % 8)) != 0
}

// The first access that changes bytes.
fn change_in(accesses: &[Access]) -> Option<&Access>
    ensures { option_copied result ≡ find (λ a. changes a.kind) accesses.now }
{
    accesses.iter().find(|access| access.kind.changes())
}

/// The store of a command.
pub(crate) fn store_of(view: &View, node: u32) -> Access
    requires { node < length view.now.effects }
    ensures { result ≡ store_of view.now node }
{
    match change_in(view.effect_at(node).accesses.as_slice()) {
        Some(access) => *access,
        None => Access {
            piece: 0,
            kind: AccessKind::Load {
                agent: Agent::Host,
                layout: None,
            },
        },
    }
}
