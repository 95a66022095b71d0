//! Names that nothing has, and layers that are not there.

ghost use Rattle.std.specs.Prelude.{◌≡◌, ◌<◌, not, None, Some, IfSome, length};
ghost use Rattle.std.specs.List.{position};
ghost use Rattle.base.specs.Walks.{first_in};
ghost use Rattle.frame.specs.Members.{member_at};
ghost use Rattle.frame.specs.Unknowns.{queue_at, has_queue, is_known, unknown_at, unknown_operand, unknown_in, unknown_by};

use crate::location::Location;
use crate::members::member_at;
use crate::table::Table;
use crate::{Frame, Pass, Spot, Write};
use base::{Name, Op, first_in};

pub(crate) fn queue_at(frame: &Frame, name: Name) -> Option<usize>
    ensures at { result ≡ queue_at frame.now name }
    ensures within { IfSome result (λ i. i < length frame.now.queues) }
{
    frame.queues.iter().position(|queue| queue.name == name)
}

fn has_queue(frame: &Frame, name: Name) -> bool
    ensures { result ≡ has_queue frame.now name }
{
    queue_at(frame, name).is_some()
}

fn unknown_at(
    table: &Table,
    p: usize,
    k: usize,
    op: &Op<Spot>,
    j: usize,
    spot: Spot,
) -> Option<Location>
    ensures { result ≡ unknown_at table.now p k op.now j spot }
{
    if table.is_known_unit(spot) {
        None
    } else {
        Some(Location::Operand(p, k, member_at(op, j)))
    }
}

fn unknown_operand(table: &Table, p: usize, k: usize, op: &Op<Spot>) -> Option<Location>
    ensures { result ≡ unknown_operand table.now p k op.now }
{
    for j in 0..op.touch_count() {
        if let Some(location) = unknown_at(table, p, k, op, j as usize, op.operand(j)) {
            return Some(location);
        }
    }
    None
}

fn unknown_spot(table: &Table, spots: &[Spot]) -> Option<usize>
    ensures { result ≡ position (λ spot. not (is_known table.now spot)) spots.now }
{
    spots.iter().position(|spot| !table.is_known(*spot))
}

fn unknown_write(table: &Table, writes: &[Write<Spot>]) -> Option<usize>
    ensures { result ≡ position (λ w. not (is_known table.now w.what)) writes.now }
{
    writes.iter().position(|write| !table.is_known(write.what))
}

fn unknown_op(table: &Table, p: usize, ops: &[Op<Spot>]) -> Option<Location>
    ensures { result ≡ first_in (unknown_operand table.now p) 0 ops.now }
{
    first_in(ops, |k, op| unknown_operand(table, p, k, op))
}

fn unknown_in(frame: &Frame, table: &Table, p: usize, pass: &Pass) -> Option<Location>
    ensures { result ≡ unknown_in frame.now table.now p pass.now }
{
    if !has_queue(frame, pass.queue) {
        return Some(Location::PassQueue(p));
    }
    if let Some(k) = unknown_spot(table, &pass.reads) {
        return Some(Location::Read(p, k));
    }
    if let Some(k) = unknown_write(table, &pass.writes) {
        return Some(Location::Write(p, k));
    }
    unknown_op(table, p, &pass.ops)
}

fn unknown_in_passes(frame: &Frame, table: &Table) -> Option<Location>
    ensures { result ≡ first_in (unknown_in frame.now table.now) 0 frame.now.passes }
{
    first_in(&frame.passes, |p, pass| unknown_in(frame, table, p, pass))
}

/// The first name or layer that is not there.
pub(crate) fn unknown(frame: &Frame, table: &Table) -> Option<Location>
    ensures { result ≡ unknown_by table.now frame.now }
{
    if let Some(location) = unknown_in_passes(frame, table) {
        return Some(location);
    }
    match unknown_spot(table, &frame.exports) {
        Some(i) => Some(Location::Export(i)),
        None => None,
    }
}
