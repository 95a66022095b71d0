//! Rows painted strip by strip into memory that is met for the first time.

ghost use Rattle.std.specs.Prelude.{◌≡◌, ◌+◌, ◌*◌, ◌^◌, ◌<◌, ◌≤◌, ◌++◌, length, replicate, vec_capacity};
ghost use Rattle.base.specs.Shapes.{texel_bytes};
ghost use Rattle.kernel_simd.specs.Internal.Painters.{AcceptsBands, ArePainted, FollowPainted};

use crate::rows::size_of;
use base::Texel;
use bytes::BytesMut;

/// About how many bytes a strip has, so that they stay in the processor's nearest cache until they are copied.
const STRIP: usize = 1 << 13;

/// The bytes of the longest row of an image.
const PAPER: usize = 1 << 14;

// How many rows of so many bytes make a strip.
fn rows_in_strip(row: usize) -> u32
    ensures { 0 < result }
{
    (STRIP / row.max(1)).max(1) as u32
}

// So many zeros more, in memory that has room for them.
#[inline(always)]
fn grow(memory: &mut Vec<u8>, size: usize)
    requires { length memory.old.items + size ≤ vec_capacity memory.old }
    ensures items { memory.new.items ≡ memory.old.items ++ replicate size 0 }
    ensures capacity { vec_capacity memory.old ≤ vec_capacity memory.new }
{
    let _grown = memory.resize(memory.len() + size, 0);
}

// The next rows, painted elsewhere and copied.
#[inline(always)]
fn paint_copy<F: Fn(u32, u32, &mut [u8])>(
    f: &F,
    texel: Texel,
    width: u32,
    first: u32,
    count: u32,
    paper: &mut [u8],
    memory: &mut Vec<u8>,
)
    requires room { length memory.old.items + texel_bytes texel * (width * count) ≤ vec_capacity memory.old }
    requires rows { first + count < 2 ^ 32 }
    requires paper { length paper.old ≡ texel_bytes texel * (width * count) }
    requires calls { AcceptsBands (F.pre f.now) texel width first count }
    ensures bytes { FollowPainted (F.post f.now) texel width first count memory.old.items memory.new.items }
    ensures size { length memory.new.items ≡ length memory.old.items + texel_bytes texel * (width * count) }
    ensures capacity { vec_capacity memory.old ≤ vec_capacity memory.new }
{
    f(first, count, paper);
    let _copied = memory.extend_from_slice(paper);
}

// The next rows, painted where they stay.
#[inline(always)]
fn paint_there<F: Fn(u32, u32, &mut [u8])>(
    f: &F,
    texel: Texel,
    width: u32,
    first: u32,
    count: u32,
    memory: &mut Vec<u8>,
)
    requires room { length memory.old.items + texel_bytes texel * (width * count) ≤ vec_capacity memory.old }
    requires rows { first + count < 2 ^ 32 }
    requires calls { AcceptsBands (F.pre f.now) texel width first count }
    ensures bytes { FollowPainted (F.post f.now) texel width first count memory.old.items memory.new.items }
    ensures size { length memory.new.items ≡ length memory.old.items + texel_bytes texel * (width * count) }
    ensures capacity { vec_capacity memory.old ≤ vec_capacity memory.new }
{
    let start = memory.len();
    grow(memory, size_of(texel) * (width as usize * count as usize));
    f(first, count, &mut memory[start..]);
}

// The next rows, by way of some paper where they have room on it.
#[inline(always)]
fn paint_strip<F: Fn(u32, u32, &mut [u8])>(
    f: &F,
    texel: Texel,
    width: u32,
    first: u32,
    count: u32,
    paper: &mut [u8],
    memory: &mut Vec<u8>,
)
    requires room { length memory.old.items + texel_bytes texel * (width * count) ≤ vec_capacity memory.old }
    requires rows { first + count < 2 ^ 32 }
    requires calls { AcceptsBands (F.pre f.now) texel width first count }
    ensures bytes { FollowPainted (F.post f.now) texel width first count memory.old.items memory.new.items }
    ensures size { length memory.new.items ≡ length memory.old.items + texel_bytes texel * (width * count) }
    ensures capacity { vec_capacity memory.old ≤ vec_capacity memory.new }
{
    let size = size_of(texel) * (width as usize * count as usize);
    if size <= paper.len() {
        paint_copy(f, texel, width, first, count, &mut paper[..size], memory);
    } else {
        paint_there(f, texel, width, first, count, memory);
    }
}

/// Calls `f(first, count, rows)` with strips of the rows, from the first on.
pub(crate) fn paint_strips<F: Fn(u32, u32, &mut [u8])>(
    f: &F,
    texel: Texel,
    width: u32,
    height: u32,
    mut memory: Vec<u8>,
) -> BytesMut
    requires room { texel_bytes texel * (width * height) ≤ vec_capacity memory }
    requires calls { AcceptsBands (F.pre f.now) texel width 0 height }
    ensures bytes { ArePainted (F.post f.now) texel width 0 height result.items }
    ensures long { length result.items ≡ texel_bytes texel * (width * height) }
{
    memory.clear();
    let mut paper = [0; PAPER];
    let rows = rows_in_strip(size_of(texel) * width as usize);
    for strip in 0..height / rows {
        paint_strip(f, texel, width, strip * rows, rows, &mut paper, &mut memory);
    }
    let done = height / rows * rows;
    paint_strip(
        f,
        texel,
        width,
        done,
        height - done,
        &mut paper,
        &mut memory,
    );
    BytesMut::from_vec(memory)
}
