//! Operations over what the parts of a word name.

use crate::SketchError;
use crate::words::Word;
use base::{Fun, List, Mix, Op, Rect};
use std::alloc::Global;

const TEXEL: Rect = Rect {
    x: 0,
    y: 0,
    width: 1,
    height: 1,
    mix: Mix::Set,
    value: 1,
};

fn draw<R: Drop>(alloc: Global, count: u32, dst: R) -> Result<Op<R>, SketchError> {
    let mut rects = List::new(alloc);
    for _k in 0..count {
        rects.push(TEXEL)?;
    }
    Ok(Op::Draw {
        dst,
        clear: None,
        rects,
    })
}

fn fill<R>(dst: R, size: u32) -> Op<R> {
    Op::FillBuffer {
        dst,
        offset: 0,
        size,
        word: 7,
    }
}

fn ramp<R>(dst: R) -> Op<R> {
    Op::Ramp {
        dst,
        base: 1,
        dx: 1,
        dy: 4,
    }
}

fn copy<R>(src: R, dst: R, size: u32) -> Op<R> {
    Op::CopyBuffer {
        src,
        dst,
        src_offset: 0,
        dst_offset: 0,
        size,
    }
}

fn across<R>(src: R, dst: R) -> Op<R> {
    Op::CopyImage {
        src,
        dst,
        src_x: 0,
        src_y: 0,
        dst_x: 0,
        dst_y: 0,
        width: 2,
        height: 2,
    }
}

// An operation from one operand to another. The word is that of one.
fn moved<R: Drop>(word: Word, src: R, dst: R) -> Result<Op<R>, SketchError> {
    match word.verb() {
        "copy" => Ok(copy(src, dst, word.number(3)?)),
        "across" => Ok(across(src, dst)),
        "in" => Ok(Op::BufferToImage {
            src,
            dst,
            offset: 0,
        }),
        "out" => Ok(Op::ImageToBuffer {
            src,
            dst,
            offset: 0,
        }),
        "map" => Ok(Op::Map {
            src,
            dst,
            fun: Fun::Add,
            value: 1,
        }),
        _ => Err(SketchError::Word),
    }
}

/// The operation of a word: its verb, its operands, sources first, and what else there is. `operand` gives what a part of
/// the word names.
pub fn op<R: Drop, F: Fn(usize) -> Result<R, SketchError>>(
    alloc: Global,
    word: Word,
    operand: F,
) -> Result<Op<R>, SketchError>
    requires { F.IsAlwaysCallable operand }
{
    match word.verb() {
        "fill" => Ok(fill(operand(1)?, word.number(2)?)),
        "clear" => Ok(Op::ClearImage {
            dst: operand(1)?,
            value: 7,
        }),
        "ramp" => Ok(ramp(operand(1)?)),
        "draw" => draw(alloc, word.number(2)?, operand(1)?),
        "select" => Ok(Op::Select {
            mask: operand(1)?,
            a: operand(2)?,
            b: operand(3)?,
            dst: operand(4)?,
        }),
        _ => moved(word, operand(1)?, operand(2)?),
    }
}
