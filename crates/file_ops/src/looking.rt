//! What the types of an operation's parts say of them.

ghost use Rattle.file_ops.specs.OpFits.{FitsOp};

use crate::RectForm;
use base::Op;
use file_json::{ListForm, Typed};

/// Goes over an operation: what the type of its operands says holds of each of them, and a `u32` holds each number.
pub fn look_at_op<F: Typed>(op: &Op<F::Of>)
    ensures { FitsOp F.Says op.now }
{
    match op {
        Op::FillBuffer {
            dst,
            offset,
            size,
            word,
        } => {
            F::look(dst);
            let _numbers = (*offset, *size, *word);
        }
        Op::ClearImage { dst, value } => {
            F::look(dst);
            let _number = *value;
        }
        Op::CopyBuffer {
            src,
            dst,
            src_offset,
            dst_offset,
            size,
        } => {
            F::look(src);
            F::look(dst);
            let _numbers = (*src_offset, *dst_offset, *size);
        }
        Op::CopyImage {
            src,
            dst,
            src_x,
            src_y,
            dst_x,
            dst_y,
            width,
            height,
        } => {
            F::look(src);
            F::look(dst);
            let _numbers = (*src_x, *src_y, *dst_x, *dst_y, *width, *height);
        }
        Op::BufferToImage { src, dst, offset } | Op::ImageToBuffer { src, dst, offset } => {
            F::look(src);
            F::look(dst);
            let _number = *offset;
        }
        Op::Ramp { dst, base, dx, dy } => {
            F::look(dst);
            let _numbers = (*base, *dx, *dy);
        }
        Op::Map {
            src,
            dst,
            value,
            ..
        } => {
            F::look(src);
            F::look(dst);
            let _number = *value;
        }
        Op::Combine { a, b, dst, .. } => {
            F::look(a);
            F::look(b);
            F::look(dst);
        }
        Op::Select { mask, a, b, dst } => {
            F::look(mask);
            F::look(a);
            F::look(b);
            F::look(dst);
        }
        Op::Convert { src, dst }
        | Op::Box3 { src, dst }
        | Op::Halve { src, dst }
        | Op::Histogram { src, dst } => {
            F::look(src);
            F::look(dst);
        }
        Op::Draw { dst, clear, rects } => {
            F::look(dst);
            if let Some(value) = clear {
                let _number = *value;
            }
            <ListForm<RectForm>>::look(rects);
        }
    }
}
