//! What commands use of units.

ghost use Rattle.std.specs.Prelude.{◌≡◌, ◌<◌, ◌≤◌, ◌^◌, ◌==◌, ◌++◌, length, take, unwrap_or, IfOk, OnOk};
ghost use Rattle.std.specs.List.{All, list_any};
ghost use Rattle.base.specs.Operands.{operands_of};
ghost use Rattle.vk.specs.Roles.{load_access};
ghost use Rattle.compile_groups.specs.Internal.Grown.{operand_use};
ghost use Rattle.compile_groups.specs.Uses.{role_writes, role_accesses, use_of, is_first_named, command_uses, uses_of};

use crate::{Command, Use};
use base::{List, NoMemory, Op, Role, Shape, Touch, shape_at};
use std::alloc::Global;
use vk::{Accesses, layout_wanted, load_access, role_stage, store_access};

fn role_writes(role: Role) -> Accesses
    ensures { result.0 ≡ role_writes role }
{
    match store_access(role) {
        Some(accesses) => accesses,
        None => Accesses(0),
    }
}

fn role_loads(role: Role, whole: bool) -> Accesses
    ensures { result.0 ≡ unwrap_or (load_access role whole) 0 }
{
    match load_access(role, whole) {
        Some(accesses) => accesses,
        None => Accesses(0),
    }
}

fn role_accesses(role: Role, whole: bool) -> Accesses
    ensures { result.0 ≡ role_accesses role whole }
{
    Accesses(role_loads(role, whole).0 | role_writes(role).0)
}

// Command c on a queue, by its operand k.
fn use_of(shapes: &[Shape], command: u32, queue: u32, operand: u32, touch: Touch) -> Use
    requires { touch.what < length shapes.now }
    ensures { result ≡ use_of shapes.now command queue operand touch }
{
    Use {
        command,
        operand,
        queue,
        unit: touch.what,
        stage: role_stage(touch.role),
        accesses: role_accesses(touch.role, touch.whole),
        writes: role_writes(touch.role),
        layout: layout_wanted(shape_at(shapes, touch.what), touch.role),
    }
}

// Whether one of the first k operands is the unit.
fn is_named(op: &Op<u32>, k: u32, unit: u32) -> bool
    requires { k ≤ length (operands_of op.now) }
    ensures { result ≡ list_any (λ x. x == unit) (take k (operands_of op.now)) }
{
    for j in 0..k {
        if op.operand(j) == unit {
            return true;
        }
    }
    false
}

// Whether an operand is the first that names one of so many units.
fn is_first_named(op: &Op<u32>, units: u32, k: u32, unit: u32) -> bool
    requires { k ≤ length (operands_of op.now) }
    ensures { result ≡ is_first_named units (take k (operands_of op.now)) unit }
{
    unit < units && !is_named(op, k, unit)
}

// The use of a unit by operand k, if that is the first that names it.
fn push_operand(
    list: &mut List<Use>,
    shapes: &[Shape],
    units: u32,
    c: u32,
    command: &Command,
    k: u32,
) -> Result<(), NoMemory>
    requires number { k < length (operands_of command.now.op) }
    requires shapes { All (λ r. r < length shapes.now) (operands_of command.now.op) }
    ensures { OnOk result (list.new ≡ list.old ++ operand_use shapes.now units c command.now k) }
{
    let touch = command.op.touch(k, shapes);
    if is_first_named(&command.op, units, k, touch.what) {
        list.push(use_of(shapes, c, command.queue, k, touch))?;
    }
    Ok(())
}

// What one command uses.
fn push_command(
    list: &mut List<Use>,
    shapes: &[Shape],
    units: u32,
    c: u32,
    command: &Command,
) -> Result<(), NoMemory>
    requires { All (λ r. r < length shapes.now) (operands_of command.now.op) }
    ensures { OnOk result (list.new ≡ list.old ++ command_uses shapes.now units c command.now) }
{
    for k in 0..command.op.touch_count() {
        push_operand(list, shapes, units, c, command, k)?;
    }
    Ok(())
}

/// What all commands use, in their order. The first shapes are those of so many units.
pub(crate) fn uses_of(
    alloc: Global,
    shapes: &[Shape],
    units: u32,
    commands: &[Command],
) -> Result<List<Use>, NoMemory>
    requires few { length commands.now < 2 ^ 32 }
    requires shapes { All (λ command. All (λ r. r < length shapes.now) (operands_of command.op)) commands.now }
    ensures { IfOk result (λ list. list ≡ uses_of shapes.now units 0 commands.now) }
{
    let mut list = List::new(alloc);
    for (c, command) in commands.iter().enumerate() {
        push_command(&mut list, shapes, units, c as u32, command)?;
    }
    Ok(list)
}
