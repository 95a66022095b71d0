//! Which operations leave no old byte of their destination.

ghost use Rattle.std.specs.Prelude.{◌≡◌, ◌<◌, ◌==◌, ◌&&◌, length, All};
ghost use Rattle.base.specs.Operands.{operands_of, mapped};
ghost use Rattle.base.specs.Shapes.{shape_at, bytes_of, has_sides};
ghost use Rattle.base.specs.Wholes.{is_whole};

use crate::shape::shape_at;
use crate::{Op, Shape};

pub(crate) fn is_whole(op: &Op<u32>, shapes: &[Shape]) -> bool
    requires { All (λ r. r < length shapes.now) (operands_of op.now) }
    ensures { result ≡ is_whole (mapped (shape_at shapes.now) op.now) }
{
    match op {
        Op::FillBuffer {
            dst,
            offset,
            size,
            ..
        } => covers(shape_at(shapes, *dst), *offset, *size as u128),
        Op::CopyBuffer {
            dst,
            dst_offset,
            size,
            ..
        } => covers(shape_at(shapes, *dst), *dst_offset, *size as u128),
        Op::ImageToBuffer { src, dst, offset } => {
            let bytes = shape_at(shapes, *src).bytes();
            covers(shape_at(shapes, *dst), *offset, bytes)
        }
        Op::CopyImage {
            dst,
            dst_x,
            dst_y,
            width,
            height,
            ..
        } => *dst_x == 0
            && *dst_y == 0
            && shape_at(shapes, *dst).has_sides(*width as u64, *height as u64),
        Op::ClearImage { .. } | Op::BufferToImage { .. } | Op::Ramp { .. } | Op::Map { .. } => true,
        Op::Combine { .. } | Op::Select { .. } | Op::Convert { .. } => true,
        Op::Box3 { .. } | Op::Halve { .. } | Op::Histogram { .. } => true,
        Op::Draw { clear, .. } => clear.is_some(),
    }
}

fn covers(shape: Shape, offset: u32, size: u128) -> bool
    ensures { result ≡ (offset == 0 && size == bytes_of shape) }
{
    offset == 0 && size == shape.bytes()
}
