//! The rules on what passes do.

ghost use Rattle.std.specs.Prelude.{◌≡◌, ◌<◌, ◌&&◌, length, not};
ghost use Rattle.std.specs.List.{All, position, list_any};
ghost use Rattle.base.specs.InPlace.{in_place};
ghost use Rattle.base.specs.Operands.{operands_of};
ghost use Rattle.base.specs.Runs.{runs};
ghost use Rattle.base.specs.Walks.{first_in};
ghost use Rattle.frame.specs.Numbered.{IsWithin};
ghost use Rattle.frame.specs.Units.{units_in};
ghost use Rattle.frame.specs.Uses.{family_of, stranger_in, writes_it, reads_it, undeclared_at, undeclared_operand, stores_whole, starts_whole, is_partial, not_whole_at, import_fits, misfit_import, misfit_at, in_place_in, read_new_in, use_at, first_use};

use crate::location::{Location, Operand};
use crate::members::member_at;
use crate::numbered::{NumberedPass, Span, Stored, Uses};
use crate::rule::Rule;
use crate::{Frame, Resource};
use base::{Family, Op, Shape, first_in, op_fits, op_in_place, op_runs};

fn family_of(frame: &Frame, queue: u32) -> Family
    ensures { result ≡ family_of frame.now queue }
{
    match frame.queues.get(queue as usize) {
        Some(declared) => declared.family,
        None => Family::Graphics,
    }
}

fn stranger(ops: &[Op<u32>], family: Family) -> Option<usize>
    ensures { result ≡ position (λ op. not (runs op family)) ops.now }
{
    ops.iter().position(|op| !op_runs(op, family))
}

fn stranger_in(frame: &Frame, p: usize, pass: &NumberedPass) -> Option<Location>
    ensures { result ≡ stranger_in frame.now p pass.now }
{
    match stranger(&pass.ops, family_of(frame, pass.queue)) {
        Some(k) => Some(Location::Op(p, k)),
        None => None,
    }
}

fn writes_it(pass: &NumberedPass, unit: u32) -> bool
    ensures { result ≡ writes_it pass.now unit }
{
    pass.writes.iter().any(|write| write.what == unit)
}

fn reads_it(pass: &NumberedPass, unit: u32) -> bool
    ensures { result ≡ reads_it pass.now unit }
{
    pass.reads.iter().any(|read| *read == unit)
}

fn undeclared_at(
    pass: &NumberedPass,
    p: usize,
    k: usize,
    op: &Op<u32>,
    j: u32,
    unit: u32,
) -> Option<Location>
    requires { j < length (operands_of op.now) }
    ensures { result ≡ undeclared_at pass.now p k op.now j unit }
{
    let source = j + 1 < op.touch_count();
    if writes_it(pass, unit) || (source && reads_it(pass, unit)) {
        None
    } else {
        Some(Location::Operand(p, k, member_at(op, j as usize)))
    }
}

fn undeclared_operand(pass: &NumberedPass, p: usize, k: usize, op: &Op<u32>) -> Option<Location>
    ensures { result ≡ undeclared_operand pass.now p k op.now }
{
    for j in 0..op.touch_count() {
        if let Some(location) = undeclared_at(pass, p, k, op, j, op.operand(j)) {
            return Some(location);
        }
    }
    None
}

fn undeclared_op(pass: &NumberedPass, p: usize, ops: &[Op<u32>]) -> Option<Location>
    ensures { result ≡ first_in (undeclared_operand pass.now p) 0 ops.now }
{
    first_in(ops, |k, op| undeclared_operand(pass, p, k, op))
}

fn stores_whole(op: &Op<u32>, shapes: &[Shape], unit: u32) -> bool
    requires { All (λ r. r < length shapes.now) (operands_of op.now) }
    ensures { result ≡ stores_whole shapes.now unit op.now }
{
    let stored = op.touch(op.touch_count() - 1, shapes);
    stored.what == unit && stored.whole
}

fn starts_whole(ops: &[Op<u32>], shapes: &[Shape], unit: u32) -> bool
    requires { All (λ op. All (λ r. r < length shapes.now) (operands_of op)) ops.now }
    ensures { result ≡ starts_whole shapes.now ops.now unit }
{
    for op in ops {
        if op.touches(unit) {
            return stores_whole(op, shapes, unit);
        }
    }
    false
}

fn is_partial(ops: &[Op<u32>], shapes: &[Shape], stored: Span) -> bool
    requires { All (λ op. All (λ r. r < length shapes.now) (operands_of op)) ops.now }
    ensures { result ≡ is_partial shapes.now ops.now stored }
{
    (stored.first..stored.end).any(|unit| !starts_whole(ops, shapes, unit))
}

fn not_whole_at(
    ops: &[Op<u32>],
    shapes: &[Shape],
    p: usize,
    j: usize,
    write: &Stored,
) -> Option<Location>
    requires { All (λ op. All (λ r. r < length shapes.now) (operands_of op)) ops.now }
    ensures { result ≡ not_whole_at shapes.now ops.now p j write.now }
{
    if write.fresh && is_partial(ops, shapes, write.units) {
        Some(Location::Write(p, j))
    } else {
        None
    }
}

fn not_whole(ops: &[Op<u32>], shapes: &[Shape], p: usize, writes: &[Stored]) -> Option<Location>
    requires { All (λ op. All (λ r. r < length shapes.now) (operands_of op)) ops.now }
    ensures { result ≡ first_in (not_whole_at shapes.now ops.now p) 0 writes.now }
{
    first_in(writes, |j, write| not_whole_at(ops, shapes, p, j, write))
}

fn import_fits(resource: &Resource) -> bool
    ensures { result ≡ import_fits resource.now.shape resource.now.import }
{
    match &resource.import {
        None => true,
        Some(bytes) => {
            resource.shape.is_buffer() && bytes.len() as u128 == resource.shape.bytes()
        }
    }
}

fn misfit(resources: &[Resource]) -> Option<usize>
    ensures { result ≡ position (λ r. not (import_fits r.shape r.import)) resources.now }
{
    resources.iter().position(|resource| !import_fits(resource))
}

/// The first import that does not fit its resource.
pub(crate) fn misfit_import(resources: &[Resource]) -> Option<Location>
    ensures { result ≡ misfit_import resources.now }
{
    match misfit(resources) {
        Some(i) => Some(Location::Import(i)),
        None => None,
    }
}

fn misfit_at(shapes: &[Shape], p: usize, k: usize, op: &Op<u32>) -> Option<Location>
    requires { All (λ r. r < length shapes.now) (operands_of op.now) }
    ensures { result ≡ misfit_at shapes.now p k op.now }
{
    if op_fits(op, shapes) {
        None
    } else {
        Some(Location::Op(p, k))
    }
}

fn misfit_op(shapes: &[Shape], p: usize, ops: &[Op<u32>]) -> Option<Location>
    requires { All (λ op. All (λ r. r < length shapes.now) (operands_of op)) ops.now }
    ensures { result ≡ first_in (misfit_at shapes.now p) 0 ops.now }
{
    first_in(ops, |k, op| misfit_at(shapes, p, k, op))
}

fn in_place(ops: &[Op<u32>]) -> Option<usize>
    ensures { result ≡ position in_place ops.now }
{
    ops.iter().position(|op| op_in_place(op))
}

fn in_place_in(p: usize, pass: &NumberedPass) -> Option<Location>
    ensures { result ≡ in_place_in p pass.now }
{
    match in_place(&pass.ops) {
        Some(k) => Some(Location::Operand(p, k, Operand::Dst)),
        None => None,
    }
}

fn reads_any(pass: &NumberedPass, units: Span) -> bool
    ensures { result ≡ list_any (reads_it pass.now) (units_in units) }
{
    (units.first..units.end).any(|unit| reads_it(pass, unit))
}

fn read_new(uses: &Uses) -> Option<usize>
    ensures { result ≡ position (λ w. w.fresh && list_any (reads_it uses.now.pass) (units_in w.units)) uses.now.writes }
{
    uses.writes
        .iter()
        .position(|write| write.fresh && reads_any(&uses.pass, write.units))
}

fn read_new_in(p: usize, uses: &Uses) -> Option<Location>
    ensures { result ≡ read_new_in p uses.now }
{
    match read_new(uses) {
        Some(j) => Some(Location::Write(p, j)),
        None => None,
    }
}

fn use_at(rule: Rule, frame: &Frame, shapes: &[Shape], p: usize, uses: &Uses) -> Option<Location>
    requires { IsWithin (length frame.now.queues) (length shapes.now) uses.now.pass }
    ensures { result ≡ use_at rule frame.now shapes.now p uses.now }
{
    match rule {
        Rule::Limits | Rule::Repeated | Rule::Unknown | Rule::Unwritten => None,
        Rule::Runs => stranger_in(frame, p, &uses.pass),
        Rule::Declared => undeclared_op(&uses.pass, p, &uses.pass.ops),
        Rule::Whole => not_whole(&uses.pass.ops, shapes, p, &uses.writes),
        Rule::Fits => misfit_op(shapes, p, &uses.pass.ops),
        Rule::InPlace => in_place_in(p, &uses.pass),
        Rule::ReadNew => read_new_in(p, uses),
    }
}

/// The first location in the passes where a rule on what one pass does is broken.
pub(crate) fn first_use(
    rule: Rule,
    frame: &Frame,
    shapes: &[Shape],
    passes: &[Uses],
) -> Option<Location>
    requires { All (λ uses. IsWithin (length frame.now.queues) (length shapes.now) uses.pass) passes.now }
    ensures { result ≡ first_use rule frame.now shapes.now passes.now }
{
    first_in(passes, |p, uses| use_at(rule, frame, shapes, p, uses))
}
