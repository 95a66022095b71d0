//! Operations that read what they store to.

ghost use Rattle.std.specs.Prelude.{◌≡◌};
ghost use Rattle.base.specs.InPlace.{in_place};

use crate::Op;

/// Whether a source is the destination.
pub fn op_in_place(op: &Op<u32>) -> bool
    ensures { result ≡ in_place op.now }
{
    match op {
        Op::FillBuffer { .. } | Op::ClearImage { .. } | Op::Ramp { .. } | Op::Draw { .. } => false,
        Op::CopyBuffer { src, dst, .. } | Op::CopyImage { src, dst, .. } => *src == *dst,
        Op::BufferToImage { src, dst, .. } | Op::ImageToBuffer { src, dst, .. } => *src == *dst,
        Op::Map { src, dst, .. } | Op::Convert { src, dst } => *src == *dst,
        Op::Box3 { src, dst } | Op::Halve { src, dst } | Op::Histogram { src, dst } => *src == *dst,
        Op::Combine { a, b, dst, .. } => *a == *dst || *b == *dst,
        Op::Select { mask, a, b, dst } => *mask == *dst || *a == *dst || *b == *dst,
    }
}
