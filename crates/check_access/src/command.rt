//! What a command loads and stores.

ghost use Rattle.std.specs.Prelude.{◌≡◌, ◌<◌, ◌++◌, [], length, true, option_to_list, IfOk, OnOk};
ghost use Rattle.std.specs.Option.{option_map_or};
ghost use Rattle.vk.specs.Roles.{load_access, store_access};
ghost use Rattle.program.specs.Ranges.{has_operands};
ghost use Rattle.check_access.specs.Effects.{role_agent, touch_load, touch_store, touch_accesses, command_accesses};

use crate::{Access, AccessKind, Agent};
use base::{List, NoMemory, Op, Role, Shape, Touch};
use std::alloc::Global;
use vk::{Accesses, agents, layout_wanted, load_access, role_stage, store_access};

// The agent of a queue that makes such an access in the stage of the role.
fn role_agent(queue: u32, role: Role, kind: Accesses) -> Agent
    ensures { result ≡ role_agent queue role kind.0 }
{
    Agent::Of {
        queue,
        bit: agents(role_stage(role), kind),
    }
}

fn load_of(shapes: &[Shape], queue: u32, touch: Touch) -> Option<Access>
    requires { touch.what < length shapes.now }
    ensures { option_to_list result ≡ option_map_or (touch_load shapes.now queue touch) (load_access touch.role touch.whole) [] }
{
    match load_access(touch.role, touch.whole) {
        Some(kind) => Some(Access {
            piece: touch.what,
            kind: AccessKind::Load {
                agent: role_agent(queue, touch.role, kind),
                layout: layout_wanted(shapes[touch.what as usize], touch.role),
            },
        }),
        None => None,
    }
}

fn store_of(shapes: &[Shape], queue: u32, touch: Touch) -> Option<Access>
    requires { touch.what < length shapes.now }
    ensures { option_to_list result ≡ option_map_or (touch_store shapes.now queue touch) (store_access touch.role) [] }
{
    match store_access(touch.role) {
        Some(kind) => Some(Access {
            piece: touch.what,
            kind: AccessKind::Store {
                agent: role_agent(queue, touch.role, kind),
                layout: layout_wanted(shapes[touch.what as usize], touch.role),
            },
        }),
        None => None,
    }
}

/// Adds the access, if it is one.
pub(crate) fn push_some(accesses: &mut List<Access>, access: Option<Access>) -> Result<(), NoMemory>
    ensures { OnOk result (accesses.new ≡ accesses.old ++ option_to_list access) }
{
    match access {
        Some(access) => accesses.push(access),
        None => Ok(()),
    }
}

fn push_touch(
    accesses: &mut List<Access>,
    shapes: &[Shape],
    queue: u32,
    touch: Touch,
) -> Result<(), NoMemory>
    requires { touch.what < length shapes.now }
    ensures { OnOk result (accesses.new ≡ accesses.old ++ touch_accesses shapes.now queue touch) }
{
    push_some(accesses, load_of(shapes, queue, touch))?;
    push_some(accesses, store_of(shapes, queue, touch))
}

/// The accesses of a command, operand by operand.
#[tactic(auto, using(crate::proofs::Commands::operand_known, crate::proofs::Commands::touch_count))]
pub(crate) fn command_accesses(
    alloc: Global,
    shapes: &[Shape],
    queue: u32,
    op: &Op<u32>,
) -> Result<List<Access>, NoMemory>
    requires { has_operands shapes.now op.now ≡ true }
    ensures { IfOk result (λ accesses. accesses ≡ command_accesses shapes.now queue op.now) }
{
    let mut accesses = List::new(alloc);
    for k in 0..op.touch_count() {
        push_touch(&mut accesses, shapes, queue, op.touch(k, shapes))?;
    }
    Ok(accesses)
}
