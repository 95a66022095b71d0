//! Operations, over any way to name what they work on.

ghost use Rattle.std.specs.Prelude.{◌≡◌, ◌<◌, [], ◌∷◌, length, slice_get, Some};
ghost use Rattle.base.specs.Operands.{operands_of, rect_count};

use crate::List;

/// What a kernel makes of two texels of one size; results wrap. `Sub` takes the second from the first. `Shl` and `Shr`
/// shift the first, by the second reduced to less than the texel's bits.
#[derive(Clone, Copy, Debug, PartialEq, Eq)]
pub enum Fun {
    Add,
    Sub,
    Mul,
    And,
    Or,
    Xor,
    Min,
    Max,
    Shl,
    Shr,
}

/// How a rectangle changes the texels under it.
#[derive(Clone, Copy, Debug, PartialEq, Eq)]
pub enum Mix {
    Set,
    And,
    Or,
    Xor,
}

/// A rectangle of a draw, in texels from the upper left corner.
#[derive(Clone, Copy, Debug, PartialEq, Eq)]
pub struct Rect {
    pub x: u32,
    pub y: u32,
    pub width: u32,
    pub height: u32,
    pub mix: Mix,
    pub value: u32,
}

/// One operation. `R` names a resource: a spot of a frame file, a piece of a submission, or a number. The sources stand
/// before the destination `dst`. Offsets and sizes are in bytes, coordinates in texels.
#[derive(Debug, Drop)]
pub enum Op<R> {
    /// The word, lowest byte first, fills `size` bytes from `offset` on.
    FillBuffer {
        dst: R,
        offset: u32,
        size: u32,
        word: u32,
    },
    /// Each texel becomes `value`.
    ClearImage {
        dst: R,
        value: u32,
    },
    /// So many bytes go from one offset to the other.
    CopyBuffer {
        src: R,
        dst: R,
        src_offset: u32,
        dst_offset: u32,
        size: u32,
    },
    /// A rectangle of texels goes from one place to the other.
    CopyImage {
        src: R,
        dst: R,
        src_x: u32,
        src_y: u32,
        dst_x: u32,
        dst_y: u32,
        width: u32,
        height: u32,
    },
    /// The image's bytes become those of the buffer from `offset` on.
    BufferToImage {
        src: R,
        dst: R,
        offset: u32,
    },
    /// The buffer's bytes from `offset` on become those of the image.
    ImageToBuffer {
        src: R,
        dst: R,
        offset: u32,
    },
    /// Texel (x, y) becomes `base + x * dx + y * dy`.
    Ramp {
        dst: R,
        base: u32,
        dx: u32,
        dy: u32,
    },
    /// Each texel becomes `fun` of the source's and `value`.
    Map {
        src: R,
        dst: R,
        fun: Fun,
        value: u32,
    },
    /// Each texel becomes `fun` of those of `a` and `b`.
    Combine {
        a: R,
        b: R,
        dst: R,
        fun: Fun,
    },
    /// Each texel becomes that of `a` where the mask's is not 0, else that of `b`.
    Select {
        mask: R,
        a: R,
        b: R,
        dst: R,
    },
    /// From 8 to 32 bits the number stays, from 32 to 8 its low byte.
    Convert {
        src: R,
        dst: R,
    },
    /// The mean of the nine texels round each place, held to the image and rounded down.
    Box3 {
        src: R,
        dst: R,
    },
    /// The mean of four texels, rounded down, at half the width and height.
    Halve {
        src: R,
        dst: R,
    },
    /// Word v becomes the number of texels with value v, modulo 2^32.
    Histogram {
        src: R,
        dst: R,
    },
    /// With `clear` each texel is first that value; then each rectangle changes its texels, in order.
    Draw {
        dst: R,
        clear: Option<u32>,
        rects: List<Rect>,
    },
}

impl<R: Copy> Op<R> {
    /// The number of operands.
    pub fn touch_count(&self) -> u32
        ensures { result ≡ length (operands_of self.now) }
    {
        match self {
            Op::FillBuffer { .. } | Op::ClearImage { .. } | Op::Ramp { .. } | Op::Draw { .. } => 1,
            Op::CopyBuffer { .. } | Op::CopyImage { .. } => 2,
            Op::BufferToImage { .. } | Op::ImageToBuffer { .. } => 2,
            Op::Map { .. } | Op::Convert { .. } | Op::Box3 { .. } => 2,
            Op::Halve { .. } | Op::Histogram { .. } => 2,
            Op::Combine { .. } => 3,
            Op::Select { .. } => 4,
        }
    }

    /// The operand with the number `k`. The destination is the last.
    pub fn operand(&self, k: u32) -> R
        requires { k < length (operands_of self.now) }
        ensures { slice_get (operands_of self.now) k ≡ Some result }
    {
        match self {
            Op::FillBuffer { dst, .. } | Op::ClearImage { dst, .. } => *dst,
            Op::Ramp { dst, .. } | Op::Draw { dst, .. } => *dst,
            Op::CopyBuffer { src, dst, .. } | Op::CopyImage { src, dst, .. } => either(
                k, *src, *dst,
            ),
            Op::BufferToImage { src, dst, .. } | Op::ImageToBuffer { src, dst, .. } => either(
                k, *src, *dst,
            ),
            Op::Map { src, dst, .. } | Op::Convert { src, dst } => either(k, *src, *dst),
            Op::Box3 { src, dst } | Op::Halve { src, dst } | Op::Histogram { src, dst } => either(
                k, *src, *dst,
            ),
            Op::Combine { a, b, dst, .. } => { if k == 0 { *a } else { either(k - 1, *b, *dst) } }
            Op::Select { mask, a, b, dst } => {
                if k < 2 {
                    either(k, *mask, *a)
                } else {
                    either(k - 2, *b, *dst)
                }
            }
        }
    }

    /// The number of rectangles that it draws.
    pub fn rect_count(&self) -> usize
        ensures { result ≡ rect_count self.now }
    {
        match self {
            Op::Draw { rects, .. } => rects.len(),
            _ => 0,
        }
    }
}

fn either<R: Copy>(k: u32, first: R, second: R) -> R
    requires { k < 2 }
    ensures { slice_get (first ∷ second ∷ []) k ≡ Some result }
{
    if k == 0 { first } else { second }
}
