//! One operation, on the bytes of its operands.

ghost use Rattle.std.specs.Prelude.{◌≡◌, ◌<◌, true, false, [], ◌∷◌, length, All};
ghost use Rattle.base.specs.Applied.{applied};
ghost use Rattle.base.specs.Fits.{fits};
ghost use Rattle.base.specs.Operands.{operands_of, destination_of, mapped};
ghost use Rattle.base.specs.Shapes.{bytes_of, shape_at};
ghost use Rattle.kernel.specs.Sources.{source_bytes, is_draw};

use crate::repainting::Area;
use crate::{transfers, whole};
use base::{Op, Shape, shape_at};

/// What an operation other than a draw leaves in `out`, which holds the destination's old bytes. The sources' bytes are
/// given in the order of the fields, and the empty slice where there is no such source.
pub fn apply(
    op: &Op<u32>,
    shapes: &[Shape],
    first: &[u8],
    second: &[u8],
    third: &[u8],
    out: &mut [u8],
)
    requires operands { All (λ r. r < length shapes.now) (operands_of op.now) }
    requires fits { fits (mapped (shape_at shapes.now) op.now) ≡ true }
    requires kind { is_draw op.now ≡ false }
    requires first { length first.now ≡ source_bytes (mapped (shape_at shapes.now) op.now) 0 }
    requires second { length second.now ≡ source_bytes (mapped (shape_at shapes.now) op.now) 1 }
    requires third { length third.now ≡ source_bytes (mapped (shape_at shapes.now) op.now) 2 }
    requires out { length out.old ≡ bytes_of (destination_of (mapped (shape_at shapes.now) op.now)) }
    ensures { out.new ≡ applied shapes.now op.now (first.now ∷ second.now ∷ third.now ∷ []) out.old }
{
    match op {
        Op::FillBuffer {
            dst,
            offset,
            size,
            word,
        } => transfers::fill_buffer(shape_at(shapes, *dst), *offset, *size, *word, out),
        Op::ClearImage { dst, value } => whole::clear(shape_at(shapes, *dst), *value, out),
        Op::CopyBuffer {
            src,
            dst,
            src_offset,
            dst_offset,
            size,
        } => {
            let range = transfers::Range {
                from: *src_offset,
                to: *dst_offset,
                size: *size,
            };
            transfers::copy_buffer(
                shape_at(shapes, *src),
                shape_at(shapes, *dst),
                range,
                first,
                out,
            )
        }
        Op::CopyImage {
            src,
            dst,
            src_x,
            src_y,
            dst_x,
            dst_y,
            width,
            height,
        } => {
            let area = Area {
                left: *dst_x,
                top: *dst_y,
                width: *width,
                height: *height,
            };
            transfers::copy_image(
                shape_at(shapes, *src),
                shape_at(shapes, *dst),
                *src_x,
                *src_y,
                area,
                first,
                out,
            )
        }
        Op::BufferToImage { src, dst, offset } => transfers::buffer_to_image(
            shape_at(shapes, *src),
            shape_at(shapes, *dst),
            *offset,
            first,
            out,
        ),
        Op::ImageToBuffer { src, dst, offset } => transfers::image_to_buffer(
            shape_at(shapes, *src),
            shape_at(shapes, *dst),
            *offset,
            first,
            out,
        ),
        Op::Ramp { dst, base, dx, dy } => whole::ramp(shape_at(shapes, *dst), *base, *dx, *dy, out),
        Op::Map {
            src,
            dst,
            fun,
            value,
        } => whole::map(
            shape_at(shapes, *src),
            shape_at(shapes, *dst),
            *fun,
            *value,
            first,
            out,
        ),
        Op::Combine { a, b, dst, fun } => {
            let from = (shape_at(shapes, *a), shape_at(shapes, *b));
            whole::combine(from, shape_at(shapes, *dst), *fun, first, second, out)
        }
        Op::Select { mask, a, b, dst } => {
            let from = (
                shape_at(shapes, *mask),
                shape_at(shapes, *a),
                shape_at(shapes, *b),
            );
            whole::select(from, shape_at(shapes, *dst), first, second, third, out)
        }
        Op::Convert { src, dst } => whole::convert(
            shape_at(shapes, *src),
            shape_at(shapes, *dst),
            first,
            out,
        ),
        Op::Box3 { src, dst } => whole::box3(
            shape_at(shapes, *src),
            shape_at(shapes, *dst),
            first,
            out,
        ),
        Op::Halve { src, dst } => whole::halve(
            shape_at(shapes, *src),
            shape_at(shapes, *dst),
            first,
            out,
        ),
        Op::Histogram { src, dst } => whole::histogram(
            shape_at(shapes, *src),
            shape_at(shapes, *dst),
            first,
            out,
        ),
        Op::Draw { .. } => {}
    }
}
