//! Which units are still wanted.

ghost use Rattle.std.specs.Prelude.{◌≡◌, ◌<◌, ◌≤◌, ◌+◌, ◌==◌, drop, length};
ghost use Rattle.std.specs.List.{list_any};
ghost use Rattle.base.specs.Operands.{touches};
ghost use Rattle.frame.specs.Numbered.{numbered};
ghost use Rattle.frame_meaning.specs.Internal.Held.{all_ops, is_wanted, ops_at, ops_from};

use crate::ops::ops_of;
use base::Op;
use frame::ValidFrame;

// Whether one of these operations names a unit.
fn is_touched(ops: &[Op<u32>], unit: u32) -> bool
    ensures { result ≡ list_any (touches unit) ops.now }
{
    ops.iter().any(|op| op.touches(unit))
}

// Whether an operation of the passes from `first` on names a unit.
fn is_touched_from(frame: &ValidFrame, first: u32, unit: u32) -> bool
    requires { first ≤ length (numbered frame.now).passes }
    ensures { result ≡ list_any (touches unit) (all_ops (drop first (numbered frame.now).passes)) }
{
    for pass in first..frame.pass_count() {
        if is_touched(ops_of(frame, pass), unit) {
            return true;
        }
    }
    false
}

fn is_exported(frame: &ValidFrame, unit: u32) -> bool
    ensures { result ≡ list_any (λ export. export == unit) (numbered frame.now).exports }
{
    frame.exports().contains(&unit)
}

/// Whether an operation of `pass` from `next` on, or one of a later pass, names a unit, or it is exported.
pub(crate) fn is_wanted(frame: &ValidFrame, pass: u32, next: usize, unit: u32) -> bool
    requires pass { pass < length (numbered frame.now).passes }
    requires next { next ≤ length (ops_at (numbered frame.now).passes pass) }
    ensures { result ≡ is_wanted (numbered frame.now).exports (ops_from (numbered frame.now).passes pass next) unit }
{
    if is_touched(&ops_of(frame, pass)[next..], unit) {
        return true;
    }
    if is_touched_from(frame, pass + 1, unit) {
        return true;
    }
    is_exported(frame, unit)
}
