//! Bands of rows, painted side by side.

ghost use Rattle.std.specs.Prelude.{◌≡◌, ◌+◌, ◌*◌, ◌^◌, ◌<◌, ◌≤◌, length};
ghost use Rattle.std.specs.Thread.{IsSync};
ghost use Rattle.base.specs.Shapes.{texel_bytes};
ghost use Rattle.kernel_simd.specs.Internal.Painters.{AcceptsBands, ArePainted};

use crate::rows::size_of;
use crate::strips::paint_strips;
use crate::target::{Memory, Target};
use base::{Op, Texel};
use bytes::BytesMut;
use rayon::join_mut;
use std::marker::Sync;
use std::thread::Threads;

/// The least bytes of a destination for each thread that paints it.
const LEAST: usize = 1 << 18;

/// The same for kernels that take little longer than the memory that they go over.
const LEAST_OF_LANES: usize = 1 << 20;

// How many threads so many bytes are shared out among, beside the one that calls.
fn helpers_in(bytes: usize, least: usize) -> usize {
    (bytes / least.max(1)).saturating_sub(1)
}

/// How many threads an operation has use for, beside the one that calls.
pub fn helpers_for(op: &Op<u32>, out: &Target) -> usize {
    match op {
        Op::Convert { .. } | Op::Box3 { .. } | Op::Halve { .. } => helpers_in(out.len(), LEAST),
        Op::ClearImage { .. }
        | Op::Ramp { .. }
        | Op::Map { .. }
        | Op::Combine { .. }
        | Op::Select { .. }
        | Op::Draw { clear: Some(_), .. }
            if !out.is_new() => { helpers_in(out.len(), LEAST_OF_LANES) }
        _ => 0,
    }
}

// How many bands are painted side by side. Processors are not counted here: that opens files of the system.
fn band_count(helpers: usize, bytes: usize) -> usize {
    helpers_in(bytes, LEAST).min(helpers).saturating_add(1)
}

// One band.
fn paint_band<F: Fn(u32, u32, &mut [u8])>(
    f: &F,
    texel: Texel,
    width: u32,
    first: u32,
    count: u32,
    out: &mut [u8],
)
    requires size { length out.old ≡ texel_bytes texel * (width * count) }
    requires rows { first + count < 2 ^ 32 }
    requires calls { AcceptsBands (F.pre f.now) texel width first count }
    ensures { ArePainted (F.post f.now) texel width first count out.new }
{
    f(first, count, out);
}

// One band of the rows goes to a new thread, where one can be made, and the others are shared out in the same way.
#[cycle(sharing)]
fn share_out<R: Threads + Sync, F: Fn(u32, u32, &mut [u8]) + Sync>(
    rt: &R,
    f: &F,
    texel: Texel,
    width: u32,
    bands: usize,
    first: u32,
    count: u32,
    out: &mut [u8],
)
    requires size { length out.old ≡ texel_bytes texel * (width * count) }
    requires rows { first + count < 2 ^ 32 }
    requires calls { AcceptsBands (F.pre f.now) texel width first count }
    ensures { ArePainted (F.post f.now) texel width first count out.new }
{
    if bands < 2 || (count as usize) < bands {
        paint_band(f, texel, width, first, count, out);
        return;
    }
    let top = (count as usize / bands) as u32;
    let (front, back) = out.split_at_mut(size_of(texel) * (width as usize * top as usize));
    both(
        rt,
        f,
        texel,
        width,
        bands - 1,
        first,
        top,
        front,
        count - top,
        back,
    );
}

// One band, beside so many that come after it.
#[cycle(sharing)]
fn both<R: Threads + Sync, F: Fn(u32, u32, &mut [u8]) + Sync>(
    rt: &R,
    f: &F,
    texel: Texel,
    width: u32,
    bands: usize,
    first: u32,
    top: u32,
    front: &mut [u8],
    bottom: u32,
    back: &mut [u8],
)
    requires front { length front.old ≡ texel_bytes texel * (width * top) }
    requires back { length back.old ≡ texel_bytes texel * (width * bottom) }
    requires rows { first + top + bottom < 2 ^ 32 }
    requires calls_front { AcceptsBands (F.pre f.now) texel width first top }
    requires calls_back { AcceptsBands (F.pre f.now) texel width (first + top) bottom }
    ensures front { ArePainted (F.post f.now) texel width first top front.new }
    ensures back { ArePainted (F.post f.now) texel width (first + top) bottom back.new }
{
    let mut upper = ||
        requires { IsSync F.row × (length front.now ≡ texel_bytes texel * (width * top)) × (first + top < 2 ^ 32) × AcceptsBands (F.pre f.now) texel width first top }
        ensures { ArePainted (F.post f.entry.now) texel width first top front.exit.now }
    { paint_band(f, texel, width, first, top, front) };
    let mut lower = ||
        requires { IsSync R.row × IsSync F.row × (length back.now ≡ texel_bytes texel * (width * bottom)) × (first + top + bottom < 2 ^ 32) × AcceptsBands (F.pre f.now) texel width (first + top) bottom }
        ensures { ArePainted (F.post f.entry.now) texel width (first + top) bottom back.exit.now }
    { share_out(rt, f, texel, width, bands, first + top, bottom, back) };
    join_mut(rt, &mut upper, &mut lower);
}

// The bytes of a destination, which threads may share out among them.
fn shared<R: Threads + Sync, F: Fn(u32, u32, &mut [u8]) + Sync>(
    rt: &R,
    helpers: usize,
    f: &F,
    texel: Texel,
    width: u32,
    height: u32,
    mut bytes: BytesMut,
) -> BytesMut
    requires size { length bytes.items ≡ texel_bytes texel * (width * height) }
    requires rows { height < 2 ^ 32 }
    requires calls { AcceptsBands (F.pre f.now) texel width 0 height }
    ensures bytes { ArePainted (F.post f.now) texel width 0 height result.items }
    ensures long { length result.items ≡ length bytes.items }
{
    let bands = band_count(helpers, bytes.len());
    share_out(rt, f, texel, width, bands, 0, height, bytes.as_mut_slice());
    bytes
}

/// Calls `f(first, count, rows)` with bands of the rows of `out`, in no more than so many threads beside the one that calls.
/// New memory is written by the caller alone, strip by strip, since meeting it takes longer than the kernels that this serves.
pub(crate) fn paint_rows<R: Threads + Sync, F: Fn(u32, u32, &mut [u8]) + Sync>(
    rt: &R,
    helpers: usize,
    texel: Texel,
    width: u32,
    height: u32,
    out: Target,
    f: F,
) -> BytesMut
    requires size { length out ≡ texel_bytes texel * (width * height) }
    requires calls { AcceptsBands (F.pre f) texel width 0 height }
    ensures bytes { ArePainted (F.post f) texel width 0 height result.items }
    ensures long { length result.items ≡ length out }
{
    match out.into_memory() {
        Memory::New(memory) => paint_strips(&f, texel, width, height, memory),
        Memory::Used(bytes) => shared(rt, helpers, &f, texel, width, height, bytes),
    }
}

/// The same for kernels that take longer: new memory is filled first, so that threads share it too.
pub(crate) fn paint_bands<R: Threads + Sync, F: Fn(u32, u32, &mut [u8]) + Sync>(
    rt: &R,
    helpers: usize,
    texel: Texel,
    width: u32,
    height: u32,
    out: Target,
    f: F,
) -> BytesMut
    requires size { length out ≡ texel_bytes texel * (width * height) }
    requires calls { AcceptsBands (F.pre f) texel width 0 height }
    ensures bytes { ArePainted (F.post f) texel width 0 height result.items }
    ensures long { length result.items ≡ length out }
{
    let bytes = out.into_bytes();
    shared(rt, helpers, &f, texel, width, height, bytes)
}
