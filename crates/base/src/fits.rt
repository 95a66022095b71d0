//! Which shapes an operation can work on.

ghost use Rattle.std.specs.Prelude.{◌≡◌, ◌<◌, ◌==◌, ◌&&◌, length, is_some, All};
ghost use Rattle.std.specs.List.{list_all};
ghost use Rattle.base.specs.Fits.{fits, is_aligned, has_drawn};
ghost use Rattle.base.specs.Operands.{operands_of, mapped};
ghost use Rattle.base.specs.Shapes.{shape_at, bytes_of, is_buffer, is_image, has_texel, has_bytes, has_rect};
ghost use Rattle.base.specs.declared.shape.Texel.TheVariants.{R8};

use crate::shape::shape_at;
use crate::{Op, Rect, Shape, Texel};

/// Whether an operation can work on its operands, of these shapes: their kinds, grids and ranges. That its source and
/// destination differ is not asked.
pub fn op_fits(op: &Op<u32>, shapes: &[Shape]) -> bool
    requires { All (λ r. r < length shapes.now) (operands_of op.now) }
    ensures { result ≡ fits (mapped (shape_at shapes.now) op.now) }
{
    match op {
        Op::FillBuffer {
            dst,
            offset,
            size,
            ..
        } => is_aligned(*offset)
            && is_aligned(*size)
            && *size >= 4
            && has_bytes(shape_at(shapes, *dst), *offset, *size as u128),
        Op::ClearImage { dst, .. } => shape_at(shapes, *dst).is_image(),
        Op::CopyBuffer {
            src,
            dst,
            src_offset,
            dst_offset,
            size,
        } => *size >= 1
            && has_bytes(shape_at(shapes, *src), *src_offset, *size as u128)
            && has_bytes(shape_at(shapes, *dst), *dst_offset, *size as u128),
        Op::CopyImage {
            src,
            dst,
            src_x,
            src_y,
            dst_x,
            dst_y,
            width,
            height,
        } => {
            let (from, to) = (shape_at(shapes, *src), shape_at(shapes, *dst));
            from.same_texel(to)
                && has_rect(from, *src_x, *src_y, *width, *height)
                && has_rect(to, *dst_x, *dst_y, *width, *height)
        }
        Op::BufferToImage { src, dst, offset } => image_fits(
            shape_at(shapes, *dst),
            shape_at(shapes, *src),
            *offset,
        ),
        Op::ImageToBuffer { src, dst, offset } => image_fits(
            shape_at(shapes, *src),
            shape_at(shapes, *dst),
            *offset,
        ),
        Op::Ramp { dst, .. } => shape_at(shapes, *dst).grid().is_some(),
        Op::Map { src, dst, .. } => shape_at(shapes, *src).same_grid(shape_at(shapes, *dst)),
        Op::Combine { a, b, dst, .. } => {
            let to = shape_at(shapes, *dst);
            shape_at(shapes, *a).same_grid(to) && shape_at(shapes, *b).same_grid(to)
        }
        Op::Select { mask, a, b, dst } => {
            let to = shape_at(shapes, *dst);
            shape_at(shapes, *mask).same_grid(to)
                && shape_at(shapes, *a).same_grid(to)
                && shape_at(shapes, *b).same_grid(to)
        }
        Op::Convert { src, dst } => shape_at(shapes, *src).same_sides(shape_at(shapes, *dst)),
        Op::Box3 { src, dst } => {
            let (from, to) = (shape_at(shapes, *src), shape_at(shapes, *dst));
            from.is_image() && to.is_image() && from.same_grid(to)
        }
        Op::Halve { src, dst } => {
            let (from, to) = (shape_at(shapes, *src), shape_at(shapes, *dst));
            from.same_texel(to) && from.twice_the_sides(to)
        }
        Op::Histogram { src, dst } => {
            let to = shape_at(shapes, *dst);
            shape_at(shapes, *src).has_texel(Texel::R8) && to.is_buffer() && to.bytes() == 1024
        }
        Op::Draw { dst, rects, .. } => draw_fits(shape_at(shapes, *dst), rects),
    }
}

fn is_aligned(n: u32) -> bool
    ensures { result ≡ is_aligned n }
{
    n % 4 == 0
}

// The range of these bytes is inside a buffer.
fn has_bytes(shape: Shape, offset: u32, size: u128) -> bool
    ensures { result ≡ has_bytes shape offset size }
{
    match shape {
        Shape::Buffer { size: total } => size <= total as u128
            && offset as u128 + size <= total as u128,
        Shape::Image { .. } => false,
    }
}

// An image's bytes are inside a buffer from this offset on.
fn image_fits(image: Shape, buffer: Shape, offset: u32) -> bool
    ensures { result ≡ (is_image image && is_aligned offset && has_bytes buffer offset (bytes_of image)) }
{
    image.is_image() && is_aligned(offset) && has_bytes(buffer, offset, image.bytes())
}

// The rectangle has a texel and is inside an image.
fn has_rect(shape: Shape, x: u32, y: u32, width: u32, height: u32) -> bool
    ensures { result ≡ has_rect shape x y width height }
{
    match shape {
        Shape::Buffer { .. } => false,
        Shape::Image {
            width: w,
            height: h,
            ..
        } => width >= 1
            && height >= 1
            && x as u64 + width as u64 <= w as u64
            && y as u64 + height as u64 <= h as u64,
    }
}

fn draw_fits(shape: Shape, rects: &[Rect]) -> bool
    ensures { result ≡ (is_image shape && list_all (has_drawn shape) rects.now) }
{
    shape.is_image() && all_inside(shape, rects)
}

fn all_inside(shape: Shape, rects: &[Rect]) -> bool
    ensures { result ≡ list_all (has_drawn shape) rects.now }
{
    rects.iter().all(|rect| has_drawn(shape, rect))
}

fn has_drawn(shape: Shape, rect: &Rect) -> bool
    ensures { result ≡ has_drawn shape rect.now }
{
    has_rect(shape, rect.x, rect.y, rect.width, rect.height)
}
