//! One operation, on the bytes of its operands, by lanes and bands.

ghost use Rattle.std.specs.Prelude.{◌≡◌, ◌<◌, true, false, [], ◌∷◌, length, All};
ghost use Rattle.base.specs.Applied.{applied};
ghost use Rattle.base.specs.Fits.{fits};
ghost use Rattle.base.specs.Operands.{operands_of, destination_of, mapped};
ghost use Rattle.base.specs.Shapes.{bytes_of, shape_at};
ghost use Rattle.kernel.specs.Sources.{source_bytes, is_draw};

use crate::draw::{clear, draw_over};
use crate::target::Target;
use crate::whole;
use base::{Op, Shape, shape_at};
use bytes::BytesMut;
use kernel::apply;
use std::thread::Threads;

// The plain way.
fn by_apply(
    op: &Op<u32>,
    shapes: &[Shape],
    first: &[u8],
    second: &[u8],
    third: &[u8],
    out: Target,
) -> BytesMut
    requires operands { All (λ r. r < length shapes.now) (operands_of op.now) }
    requires fits { fits (mapped (shape_at shapes.now) op.now) ≡ true }
    requires kind { is_draw op.now ≡ false }
    requires first { length first.now ≡ source_bytes (mapped (shape_at shapes.now) op.now) 0 }
    requires second { length second.now ≡ source_bytes (mapped (shape_at shapes.now) op.now) 1 }
    requires third { length third.now ≡ source_bytes (mapped (shape_at shapes.now) op.now) 2 }
    requires out { length out ≡ bytes_of (destination_of (mapped (shape_at shapes.now) op.now)) }
    ensures bytes { result.items ≡ applied shapes.now op.now (first.now ∷ second.now ∷ third.now ∷ []) out }
    ensures long { length result.items ≡ length out }
{
    let mut bytes = out.into_bytes();
    apply(op, shapes, first, second, third, bytes.as_mut_slice());
    bytes
}

/// What an operation leaves in the place of the bytes of `out`, as `apply` and `draw` of `kernel` do under the
/// same conditions. Fills of buffers, ramps, maps, combinations and selections go by vector lanes; these but the fills, and clears,
/// convert, box3 and halve, go by bands of rows where the destination is large: in so many threads beside the one that calls, or
/// fewer. It takes no memory.
pub fn apply_fast<R: Threads + Sync>(
    rt: &R,
    helpers: usize,
    op: &Op<u32>,
    shapes: &[Shape],
    first: &[u8],
    second: &[u8],
    third: &[u8],
    out: Target,
) -> BytesMut
    requires operands { All (λ r. r < length shapes.now) (operands_of op.now) }
    requires fits { fits (mapped (shape_at shapes.now) op.now) ≡ true }
    requires first { length first.now ≡ source_bytes (mapped (shape_at shapes.now) op.now) 0 }
    requires second { length second.now ≡ source_bytes (mapped (shape_at shapes.now) op.now) 1 }
    requires third { length third.now ≡ source_bytes (mapped (shape_at shapes.now) op.now) 2 }
    requires out { length out ≡ bytes_of (destination_of (mapped (shape_at shapes.now) op.now)) }
    ensures bytes { result.items ≡ applied shapes.now op.now (first.now ∷ second.now ∷ third.now ∷ []) out }
    ensures long { length result.items ≡ length out }
{
    match op {
        Op::FillBuffer {
            dst,
            offset,
            size,
            word,
        } => whole::fill_buffer(shape_at(shapes, *dst), *offset, *size, *word, out),
        Op::ClearImage { dst, value } => clear(rt, helpers, shape_at(shapes, *dst), *value, out),
        Op::Ramp { dst, base, dx, dy } => whole::ramp(
            rt,
            helpers,
            shape_at(shapes, *dst),
            *base,
            *dx,
            *dy,
            out,
        ),
        Op::Map {
            src,
            dst,
            fun,
            value,
        } => whole::map(
            rt,
            helpers,
            shape_at(shapes, *src),
            shape_at(shapes, *dst),
            *fun,
            *value,
            first,
            out,
        ),
        Op::Combine { a, b, dst, fun } => {
            let from = (shape_at(shapes, *a), shape_at(shapes, *b));
            whole::combine(
                rt,
                helpers,
                from,
                shape_at(shapes, *dst),
                *fun,
                first,
                second,
                out,
            )
        }
        Op::Select { mask, a, b, dst } => {
            let from = (
                shape_at(shapes, *mask),
                shape_at(shapes, *a),
                shape_at(shapes, *b),
            );
            whole::select(
                rt,
                helpers,
                from,
                shape_at(shapes, *dst),
                first,
                second,
                third,
                out,
            )
        }
        Op::Convert { src, dst } => whole::convert(
            rt,
            helpers,
            shape_at(shapes, *src),
            shape_at(shapes, *dst),
            first,
            out,
        ),
        Op::Box3 { src, dst } => whole::box3(
            rt,
            helpers,
            shape_at(shapes, *src),
            shape_at(shapes, *dst),
            first,
            out,
        ),
        Op::Halve { src, dst } => whole::halve(
            rt,
            helpers,
            shape_at(shapes, *src),
            shape_at(shapes, *dst),
            first,
            out,
        ),
        Op::Draw { dst, clear, rects } => draw_over(
            rt,
            helpers,
            shape_at(shapes, *dst),
            *clear,
            rects,
            out,
        ),
        _ => by_apply(op, shapes, first, second, third, out),
    }
}
