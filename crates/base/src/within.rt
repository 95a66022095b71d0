//! Operations whose operands are there.

ghost use Rattle.std.specs.Prelude.{◌<◌, ◌↔◌, All, IsTrue};
ghost use Rattle.base.specs.Operands.{operands_of};

use crate::Op;

/// Whether each operand is below `count`, as `op_fits` and `touch` need it of the number of shapes.
pub fn op_within(op: &Op<u32>, count: usize) -> bool
    ensures { IsTrue result ↔ All (λ r. r < count) (operands_of op.now) }
{
    for k in 0..op.touch_count() {
        if op.operand(k) as usize >= count {
            return false;
        }
    }
    true
}
