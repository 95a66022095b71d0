//! Which command of a frame reaches which.

ghost use Rattle.std.specs.Prelude.{◌≡◌, ◌<◌, ◌↔◌, ◌+◌, ◌==◌, ◌&&◌, ◌||◌, ℕ, length, true, IfOk};
ghost use Rattle.std.specs.List.{All};
ghost use Rattle.compile_groups.specs.Laws.{IsGrouped};
ghost use Rattle.compile_groups.specs.Needs.{group_at, has_unit, has_command, one_unit, needs, leads};
ghost use Rattle.compile_lifetimes.specs.Internal.Leading.{queue_in, leads_to, comes_later, needs_by, AreForward};
ghost use Rattle.base_reach.specs.Pairs.{has};
ghost use Rattle.base_reach.specs.Paths.{Path};

use base::NoMemory;
use base_reach::Rows;
use compile_groups::{Command, Groups, Use};
use std::alloc::Global;

// ALONG QUEUES

fn queue_of(commands: &[Command], number: u32) -> u32
    requires { number < length commands.now }
    ensures { result ≡ queue_in commands.now number }
{
    commands[number as usize].queue
}

// Adds a pair of commands, if they are on one queue.
fn add_on_queue(rows: &mut Rows, commands: &[Command], from: u32, to: u32)
    requires count { rows.old.count ≡ length commands.now }
    requires order { from < to }
    requires below { to < length commands.now }
    ensures count { rows.new.count ≡ rows.old.count }
    ensures has { (x y : ℕ) → has rows.new x y ≡ (((x == from) && ((y == to) && (queue_in commands.now from == queue_in commands.now to))) || has rows.old x y) }
{
    if queue_of(commands, from) != queue_of(commands, to) {
        return;
    }
    rows.set(from, to);
}

// Adds that each earlier command of its queue leads to a command.
fn add_earlier(rows: &mut Rows, commands: &[Command], to: u32)
    requires count { rows.old.count ≡ length commands.now }
    requires below { to < length commands.now }
    ensures count { rows.new.count ≡ rows.old.count }
    ensures has { (x y : ℕ) → has rows.new x y ≡ (leads_to commands.now to to x y || has rows.old x y) }
{
    for from in 0..to {
        add_on_queue(rows, commands, from, to);
    }
}

fn add_queues(rows: &mut Rows, commands: &[Command], count: u32)
    requires commands { count ≡ length commands.now }
    requires rows { rows.old.count ≡ count }
    ensures count { rows.new.count ≡ rows.old.count }
    ensures has { (x y : ℕ) → has rows.new x y ≡ (comes_later commands.now x y || has rows.old x y) }
{
    for to in 0..count {
        add_earlier(rows, commands, to);
    }
}

// FROM GROUP TO GROUP

fn has_unit(uses: &[Use], unit: u32) -> bool
    ensures { result ≡ has_unit unit uses.now }
{
    uses.iter().any(|u| u.unit == unit)
}

fn one_unit(uses: &[Use], next: &[Use]) -> bool
    ensures { result ≡ one_unit uses.now next.now }
{
    uses.iter().any(|u| has_unit(next, u.unit))
}

fn add_from(rows: &mut Rows, from: u32, next: &[Use])
    requires { All (λ v. (from < v.command) × (v.command < rows.old.count)) next.now }
    ensures count { rows.new.count ≡ rows.old.count }
    ensures has { (x y : ℕ) → has rows.new x y ≡ (((from == x) && has_command y next.now) || has rows.old x y) }
{
    for v in next {
        rows.set(from, v.command);
    }
}

fn add_between(rows: &mut Rows, uses: &[Use], next: &[Use])
    requires { AreForward rows.old.count uses.now next.now }
    ensures count { rows.new.count ≡ rows.old.count }
    ensures has { (x y : ℕ) → has rows.new x y ≡ ((has_command x uses.now && has_command y next.now) || has rows.old x y) }
{
    for u in uses {
        add_from(rows, u.command, next);
    }
}

// The uses of the group with the next number, none after the last.
fn members_after(groups: &Groups, g: u32) -> &[Use]
    requires { g < length groups.now.groups }
    ensures { result.now ≡ group_at groups.now (g + 1) }
{
    let count = groups.group_count();
    if g + 1 < count {
        groups.members(g + 1)
    } else {
        &[]
    }
}

fn add_needs_by(rows: &mut Rows, groups: &Groups, g: u32)
    requires g { g < length groups.now.groups }
    requires count { rows.old.count ≡ length groups.now.commands }
    ensures count { rows.new.count ≡ rows.old.count }
    ensures has { (x y : ℕ) → has rows.new x y ≡ (needs_by groups.now x y g || has rows.old x y) }
{
    let uses = groups.members(g);
    let next = members_after(groups, g);
    if !one_unit(uses, next) {
        return;
    }
    add_between(rows, uses, next);
}

fn add_needs(rows: &mut Rows, groups: &Groups)
    requires count { rows.old.count ≡ length groups.now.commands }
    ensures count { rows.new.count ≡ rows.old.count }
    ensures has { (x y : ℕ) → has rows.new x y ≡ (needs groups.now x y || has rows.old x y) }
{
    for g in 0..groups.group_count() {
        add_needs_by(rows, groups, g);
    }
}

// ALL

/// From which command which is reached by needs and along queues.
pub(crate) fn reach_of(alloc: Global, groups: &Groups) -> Result<Rows, NoMemory>
    ensures grouped { IsGrouped groups.now }
    ensures count { IfOk result (λ rows. rows.count ≡ length groups.now.commands) }
    ensures has { IfOk result (λ rows. (c d : ℕ) → (has rows c d ≡ true) ↔ Path (leads groups.now) c d) }
{
    let commands = groups.commands();
    let count = commands.len() as u32;
    let mut rows = Rows::empty(alloc, count)?;
    add_queues(&mut rows, commands, count);
    add_needs(&mut rows, groups);
    rows.close();
    Ok(rows)
}
