//! Which queues run an operation.

ghost use Rattle.std.specs.Prelude.{◌≡◌};
ghost use Rattle.base.specs.Runs.{runs, has_kernels, is_graphics};

use crate::{Family, Op};

/// Whether queues of this family run the operation.
pub fn op_runs(op: &Op<u32>, family: Family) -> bool
    ensures { result ≡ runs op.now family }
{
    match op {
        Op::FillBuffer { .. } | Op::CopyBuffer { .. } | Op::CopyImage { .. } => true,
        Op::BufferToImage { .. } | Op::ImageToBuffer { .. } => true,
        Op::ClearImage { .. } | Op::Ramp { .. } | Op::Map { .. } => has_kernels(family),
        Op::Combine { .. } | Op::Select { .. } | Op::Convert { .. } => has_kernels(family),
        Op::Box3 { .. } | Op::Halve { .. } | Op::Histogram { .. } => has_kernels(family),
        Op::Draw { .. } => is_graphics(family),
    }
}

fn has_kernels(family: Family) -> bool
    ensures { result ≡ has_kernels family }
{
    match family {
        Family::Graphics | Family::Compute => true,
        Family::Transfer => false,
    }
}

fn is_graphics(family: Family) -> bool
    ensures { result ≡ is_graphics family }
{
    match family {
        Family::Graphics => true,
        Family::Compute | Family::Transfer => false,
    }
}
