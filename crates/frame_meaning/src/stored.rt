//! Which units have contents.

ghost use Rattle.std.specs.Prelude.{◌≡◌, ◌<◌, map, is_some, length, IfOk};
ghost use Rattle.std.specs.List.{All};
ghost use Rattle.base.specs.Operands.{destination_of, operands_of, mapped};
ghost use Rattle.base.specs.Shapes.{shape_at};
ghost use Rattle.base.specs.Wholes.{is_whole};
ghost use Rattle.frame.specs.Numbered.{numbered};
ghost use Rattle.frame_meaning.specs.Internal.Stored.{marked_by, AreMarked};

use base::{List, NoMemory, Op, Shape};
use frame::ValidFrame;
use std::alloc::Global;

/// The unit that an operation stores to.
pub(crate) fn destination(op: &Op<u32>) -> u32
    ensures { result ≡ destination_of op.now }
{
    op.operand(op.touch_count() - 1)
}

/// Whether an operation leaves no old byte of the unit that it stores to.
pub(crate) fn is_whole(op: &Op<u32>, shapes: &[Shape]) -> bool
    requires { All (λ unit. unit < length shapes.now) (operands_of op.now) }
    ensures { result ≡ is_whole (mapped (shape_at shapes.now) op.now) }
{
    op.touch(op.touch_count() - 1, shapes).whole
}

fn imports(alloc: Global, frame: &ValidFrame) -> Result<List<bool>, NoMemory>
    ensures { IfOk result (λ marks. marks ≡ map (λ u. is_some u.imported) (numbered frame.now).units) }
{
    let mut marks = List::new(alloc);
    for unit in 0..frame.unit_count() {
        marks.push(frame.is_import(unit))?;
    }
    Ok(marks)
}

fn mark(marks: &mut List<bool>, ops: &[Op<u32>])
    requires { All (λ op. All (λ unit. unit < length marks.old) (operands_of op)) ops.now }
    ensures { marks.new ≡ marked_by ops.now marks.old }
{
    for op in ops {
        marks.set(destination(op) as usize, true);
    }
}

/// For each unit whether it is an import or an operation stores to it.
pub(crate) fn stored(alloc: Global, frame: &ValidFrame) -> Result<List<bool>, NoMemory>
    ensures { IfOk result (λ marks. AreMarked (numbered frame.now) marks) }
{
    let mut marks = imports(alloc, frame)?;
    for pass in 0..frame.pass_count() {
        mark(&mut marks, frame.ops(pass));
    }
    Ok(marks)
}
