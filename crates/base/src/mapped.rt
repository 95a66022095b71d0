//! An operation over other operands.

ghost use Rattle.std.specs.Prelude.{◌≡◌, IfOk, All, Ok};
ghost use Rattle.base.specs.Operands.{operands_of, mapped};

use crate::{NoMemory, Op};
use std::alloc::Global;

// What `f` gives for two operands, in this order.
fn both<R: Copy, S: Drop, F: Fn(R) -> Result<S, NoMemory>>(
    f: &F,
    first: R,
    second: R,
) -> Result<(S, S), NoMemory>
    requires first { F.pre f.now first }
    requires second { F.pre f.now second }
    ensures { (g : R → S) → ((x : R) (y : S) → F.post f.now x (Ok y) → y ≡ g x) → IfOk result (λ pair. (pair.0 ≡ g first) × (pair.1 ≡ g second)) }
{
    Ok((f(first)?, f(second)?))
}

impl<R: Copy> Op<R> {
    /// The same operation on what `f` gives for each operand, the sources first.
    pub fn mapped<S: Drop, F: Fn(R) -> Result<S, NoMemory>>(
        &self,
        alloc: Global,
        f: F,
    ) -> Result<Op<S>, NoMemory>
        requires { All (F.pre f) (operands_of self.now) }
        ensures { (g : R → S) → ((x : R) (y : S) → F.post f x (Ok y) → y ≡ g x) → IfOk result (λ op. op ≡ mapped g self.now) }
    {
        match self {
            Op::FillBuffer {
                dst,
                offset,
                size,
                word,
            } => Ok(Op::FillBuffer {
                dst: f(*dst)?,
                offset: *offset,
                size: *size,
                word: *word,
            }),
            Op::ClearImage { dst, value } => Ok(Op::ClearImage {
                dst: f(*dst)?,
                value: *value,
            }),
            Op::CopyBuffer {
                src,
                dst,
                src_offset,
                dst_offset,
                size,
            } => {
                let (src, dst) = both(&f, *src, *dst)?;
                Ok(Op::CopyBuffer {
                    src,
                    dst,
                    src_offset: *src_offset,
                    dst_offset: *dst_offset,
                    size: *size,
                })
            }
            Op::CopyImage {
                src,
                dst,
                src_x,
                src_y,
                dst_x,
                dst_y,
                width,
                height,
            } => {
                let (src, dst) = both(&f, *src, *dst)?;
                Ok(Op::CopyImage {
                    src,
                    dst,
                    src_x: *src_x,
                    src_y: *src_y,
                    dst_x: *dst_x,
                    dst_y: *dst_y,
                    width: *width,
                    height: *height,
                })
            }
            Op::BufferToImage { src, dst, offset } => {
                let (src, dst) = both(&f, *src, *dst)?;
                Ok(Op::BufferToImage {
                    src,
                    dst,
                    offset: *offset,
                })
            }
            Op::ImageToBuffer { src, dst, offset } => {
                let (src, dst) = both(&f, *src, *dst)?;
                Ok(Op::ImageToBuffer {
                    src,
                    dst,
                    offset: *offset,
                })
            }
            Op::Ramp { dst, base, dx, dy } => Ok(Op::Ramp {
                dst: f(*dst)?,
                base: *base,
                dx: *dx,
                dy: *dy,
            }),
            Op::Map {
                src,
                dst,
                fun,
                value,
            } => {
                let (src, dst) = both(&f, *src, *dst)?;
                Ok(Op::Map {
                    src,
                    dst,
                    fun: *fun,
                    value: *value,
                })
            }
            Op::Combine { a, b, dst, fun } => {
                let (a, b) = both(&f, *a, *b)?;
                Ok(Op::Combine {
                    a,
                    b,
                    dst: f(*dst)?,
                    fun: *fun,
                })
            }
            Op::Select { mask, a, b, dst } => {
                let (mask, a) = both(&f, *mask, *a)?;
                let (b, dst) = both(&f, *b, *dst)?;
                Ok(Op::Select { mask, a, b, dst })
            }
            Op::Convert { src, dst } => {
                let (src, dst) = both(&f, *src, *dst)?;
                Ok(Op::Convert { src, dst })
            }
            Op::Box3 { src, dst } => {
                let (src, dst) = both(&f, *src, *dst)?;
                Ok(Op::Box3 { src, dst })
            }
            Op::Halve { src, dst } => {
                let (src, dst) = both(&f, *src, *dst)?;
                Ok(Op::Halve { src, dst })
            }
            Op::Histogram { src, dst } => {
                let (src, dst) = both(&f, *src, *dst)?;
                Ok(Op::Histogram { src, dst })
            }
            Op::Draw { dst, clear, rects } => Ok(Op::Draw {
                dst: f(*dst)?,
                clear: *clear,
                rects: rects.copy(alloc)?,
            }),
        }
    }

    /// An equal operation.
    pub fn copy(&self, alloc: Global) -> Result<Op<R>, NoMemory>
    where
        R: Drop,
        ensures { IfOk result (λ op. op ≡ self.now) }
    {
        self.mapped(alloc, |operand: R| Ok(operand))
    }
}
