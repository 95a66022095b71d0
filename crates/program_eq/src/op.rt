//! Operations on pieces.

ghost use Rattle.std.specs.Prelude.{◌≡◌, ◌↔◌, IsTrue};
ghost use Rattle.base.specs.declared.op.Op.TheVariants as ops;

use crate::Same;
use base::{Fun, List, Op, Rect};

impl Same for Op<u32> {
    fn same(&self, other: &Op<u32>) -> bool {
        match self {
            Op::FillBuffer {
                dst,
                offset,
                size,
                word,
            } => is_fill(other, *dst, *offset, *size, *word),
            Op::ClearImage { dst, value } => is_clear(other, *dst, *value),
            Op::CopyBuffer {
                src,
                dst,
                src_offset,
                dst_offset,
                size,
            } => is_buffer_copy(other, *src, *dst, *src_offset, *dst_offset, *size),
            Op::CopyImage {
                src,
                dst,
                src_x,
                src_y,
                dst_x,
                dst_y,
                width,
                height,
            } => is_image_copy(
                other, *src, *dst, *src_x, *src_y, *dst_x, *dst_y, *width, *height,
            ),
            Op::BufferToImage { src, dst, offset } => is_upload(other, *src, *dst, *offset),
            Op::ImageToBuffer { src, dst, offset } => is_download(other, *src, *dst, *offset),
            Op::Ramp { dst, base, dx, dy } => is_ramp(other, *dst, *base, *dx, *dy),
            Op::Map {
                src,
                dst,
                fun,
                value,
            } => is_map(other, *src, *dst, *fun, *value),
            Op::Combine { a, b, dst, fun } => is_combine(other, *a, *b, *dst, *fun),
            Op::Select { mask, a, b, dst } => is_select(other, *mask, *a, *b, *dst),
            Op::Convert { src, dst } => is_convert(other, *src, *dst),
            Op::Box3 { src, dst } => is_box3(other, *src, *dst),
            Op::Halve { src, dst } => is_halve(other, *src, *dst),
            Op::Histogram { src, dst } => is_histogram(other, *src, *dst),
            Op::Draw { dst, clear, rects } => is_draw(other, *dst, *clear, rects),
        }
    }
}

fn is_fill(op: &Op<u32>, dst: u32, offset: u32, size: u32, word: u32) -> bool
    ensures { IsTrue result ↔ (op.now ≡ ops.FillBuffer dst offset size word) }
{
    match op {
        Op::FillBuffer {
            dst: own_dst,
            offset: own_offset,
            size: own_size,
            word: own_word,
        } => { *own_dst == dst && *own_offset == offset && *own_size == size && *own_word == word }
        _ => false,
    }
}

fn is_clear(op: &Op<u32>, dst: u32, value: u32) -> bool
    ensures { IsTrue result ↔ (op.now ≡ ops.ClearImage dst value) }
{
    match op {
        Op::ClearImage {
            dst: own_dst,
            value: own_value,
        } => { *own_dst == dst && *own_value == value }
        _ => false,
    }
}

fn is_buffer_copy(
    op: &Op<u32>,
    src: u32,
    dst: u32,
    src_offset: u32,
    dst_offset: u32,
    size: u32,
) -> bool
    ensures { IsTrue result ↔ (op.now ≡ ops.CopyBuffer src dst src_offset dst_offset size) }
{
    match op {
        Op::CopyBuffer {
            src: own_src,
            dst: own_dst,
            src_offset: own_src_offset,
            dst_offset: own_dst_offset,
            size: own_size,
        } => {
            *own_src == src
                && *own_dst == dst
                && *own_src_offset == src_offset
                && *own_dst_offset == dst_offset
                && *own_size == size
        }
        _ => false,
    }
}

fn is_image_copy(
    op: &Op<u32>,
    src: u32,
    dst: u32,
    src_x: u32,
    src_y: u32,
    dst_x: u32,
    dst_y: u32,
    width: u32,
    height: u32,
) -> bool
    ensures { IsTrue result ↔ (op.now ≡ ops.CopyImage src dst src_x src_y dst_x dst_y width height) }
{
    match op {
        Op::CopyImage {
            src: own_src,
            dst: own_dst,
            src_x: own_src_x,
            src_y: own_src_y,
            dst_x: own_dst_x,
            dst_y: own_dst_y,
            width: own_width,
            height: own_height,
        } => {
            *own_src == src
                && *own_dst == dst
                && *own_src_x == src_x
                && *own_src_y == src_y
                && *own_dst_x == dst_x
                && *own_dst_y == dst_y
                && *own_width == width
                && *own_height == height
        }
        _ => false,
    }
}

fn is_upload(op: &Op<u32>, src: u32, dst: u32, offset: u32) -> bool
    ensures { IsTrue result ↔ (op.now ≡ ops.BufferToImage src dst offset) }
{
    match op {
        Op::BufferToImage {
            src: own_src,
            dst: own_dst,
            offset: own_offset,
        } => { *own_src == src && *own_dst == dst && *own_offset == offset }
        _ => false,
    }
}

fn is_download(op: &Op<u32>, src: u32, dst: u32, offset: u32) -> bool
    ensures { IsTrue result ↔ (op.now ≡ ops.ImageToBuffer src dst offset) }
{
    match op {
        Op::ImageToBuffer {
            src: own_src,
            dst: own_dst,
            offset: own_offset,
        } => { *own_src == src && *own_dst == dst && *own_offset == offset }
        _ => false,
    }
}

fn is_ramp(op: &Op<u32>, dst: u32, base: u32, dx: u32, dy: u32) -> bool
    ensures { IsTrue result ↔ (op.now ≡ ops.Ramp dst base dx dy) }
{
    match op {
        Op::Ramp {
            dst: own_dst,
            base: own_base,
            dx: own_dx,
            dy: own_dy,
        } => { *own_dst == dst && *own_base == base && *own_dx == dx && *own_dy == dy }
        _ => false,
    }
}

fn is_map(op: &Op<u32>, src: u32, dst: u32, fun: Fun, value: u32) -> bool
    ensures { IsTrue result ↔ (op.now ≡ ops.Map src dst fun value) }
{
    match op {
        Op::Map {
            src: own_src,
            dst: own_dst,
            fun: own_fun,
            value: own_value,
        } => { *own_src == src && *own_dst == dst && *own_fun == fun && *own_value == value }
        _ => false,
    }
}

fn is_combine(op: &Op<u32>, a: u32, b: u32, dst: u32, fun: Fun) -> bool
    ensures { IsTrue result ↔ (op.now ≡ ops.Combine a b dst fun) }
{
    match op {
        Op::Combine {
            a: own_a,
            b: own_b,
            dst: own_dst,
            fun: own_fun,
        } => { *own_a == a && *own_b == b && *own_dst == dst && *own_fun == fun }
        _ => false,
    }
}

fn is_select(op: &Op<u32>, mask: u32, a: u32, b: u32, dst: u32) -> bool
    ensures { IsTrue result ↔ (op.now ≡ ops.Select mask a b dst) }
{
    match op {
        Op::Select {
            mask: own_mask,
            a: own_a,
            b: own_b,
            dst: own_dst,
        } => { *own_mask == mask && *own_a == a && *own_b == b && *own_dst == dst }
        _ => false,
    }
}

fn is_convert(op: &Op<u32>, src: u32, dst: u32) -> bool
    ensures { IsTrue result ↔ (op.now ≡ ops.Convert src dst) }
{
    match op {
        Op::Convert {
            src: own_src,
            dst: own_dst,
        } => { *own_src == src && *own_dst == dst }
        _ => false,
    }
}

fn is_box3(op: &Op<u32>, src: u32, dst: u32) -> bool
    ensures { IsTrue result ↔ (op.now ≡ ops.Box3 src dst) }
{
    match op {
        Op::Box3 {
            src: own_src,
            dst: own_dst,
        } => { *own_src == src && *own_dst == dst }
        _ => false,
    }
}

fn is_halve(op: &Op<u32>, src: u32, dst: u32) -> bool
    ensures { IsTrue result ↔ (op.now ≡ ops.Halve src dst) }
{
    match op {
        Op::Halve {
            src: own_src,
            dst: own_dst,
        } => { *own_src == src && *own_dst == dst }
        _ => false,
    }
}

fn is_histogram(op: &Op<u32>, src: u32, dst: u32) -> bool
    ensures { IsTrue result ↔ (op.now ≡ ops.Histogram src dst) }
{
    match op {
        Op::Histogram {
            src: own_src,
            dst: own_dst,
        } => { *own_src == src && *own_dst == dst }
        _ => false,
    }
}

fn is_draw(op: &Op<u32>, dst: u32, clear: Option<u32>, rects: &List<Rect>) -> bool
    ensures { IsTrue result ↔ (op.now ≡ ops.Draw dst clear rects.now) }
{
    match op {
        Op::Draw {
            dst: own_dst,
            clear: own_clear,
            rects: own_rects,
        } => { *own_dst == dst && *own_clear == clear && own_rects.same(rects) }
        _ => false,
    }
}
