//! What a command stores, by what it loaded.

ghost use Rattle.std.specs.Prelude.{◌≡◌, ◌≤◌, ◌<◌, ℕ, List, [], length, take, slice_get, slice_index_or, Some, true, IfSome};
ghost use Rattle.std.specs.List.{All};
ghost use Rattle.base.specs.Applied.{applied};
ghost use Rattle.base.specs.Fits.{fits};
ghost use Rattle.base.specs.Operands.{sources_of, destination_of, operands_of, mapped};
ghost use Rattle.base.specs.Shapes.{bytes_of, shape_at};
ghost use Rattle.base.specs.Wholes.{is_whole};
ghost use Rattle.device.specs.Internal.Loads.{IsRunnable, LeadsOn};
ghost use Rattle.device_model.specs.Outputs.{no_old, stored_by};

use crate::room::Room;
use base::{Op, Shape, shape_at};
use bytes::{Bytes, BytesMut};
use device_cache::Contents;
use device_clear::cleared;
use kernel::{apply, draw, whole_leaves_nothing_old};
use kernel_simd::{Target, apply_fast};
use std::thread::Threads;

// How many sources an operation has.
#[tactic(auto, using(crate::proofs::Sources::one_more))]
fn source_count(op: &Op<u32>) -> usize
    ensures { result ≡ length (sources_of op.now) }
{
    op.touch_count() as usize - 1
}

// The bytes of a source; none where the operation has no such source.
#[tactic(auto, using(crate::proofs::Sources::source_read, crate::proofs::Sources::source_past))]
fn source<'a>(op: &Op<u32>, loaded: &'a [Bytes], k: usize) -> &'a [u8]
    requires { length (sources_of op.now) ≤ length loaded.now }
    ensures { result.now ≡ slice_index_or (take (length (sources_of op.now)) loaded.now) k [] }
{
    if k < source_count(op) {
        &loaded[k]
    } else {
        &[]
    }
}

// What the operation leaves in `out`, which holds the destination's old bytes.
fn run(op: &Op<u32>, shapes: &[Shape], loaded: &[Bytes], out: &mut [u8])
    requires runnable { IsRunnable shapes.now op.now loaded.now }
    requires out { length out.old ≡ bytes_of (shape_at shapes.now (destination_of op.now)) }
    ensures { out.new ≡ applied shapes.now op.now (take (length (sources_of op.now)) loaded.now) out.old }
{
    if let Op::Draw { dst, clear, rects } = op {
        draw(shapes[*dst as usize], *clear, rects, out)
    } else {
        apply(
            op,
            shapes,
            source(op, loaded, 0),
            source(op, loaded, 1),
            source(op, loaded, 2),
            out,
        )
    }
}

// What the operation leaves in the place of these bytes, by lanes and by bands, in so many threads more.
fn run_fast<R: Threads + Sync>(
    rt: &R,
    helpers: usize,
    op: &Op<u32>,
    shapes: &[Shape],
    loaded: &[Bytes],
    out: Target,
) -> BytesMut
    requires runnable { IsRunnable shapes.now op.now loaded.now }
    requires out { length out ≡ bytes_of (shape_at shapes.now (destination_of op.now)) }
    ensures bytes { result.items ≡ applied shapes.now op.now (take (length (sources_of op.now)) loaded.now) out }
    ensures long { length result.items ≡ length out }
{
    apply_fast(
        rt,
        helpers,
        op,
        shapes,
        source(op, loaded, 0),
        source(op, loaded, 1),
        source(op, loaded, 2),
        out,
    )
}

// Whether the operation leaves no old byte of its destination.
#[tactic(auto, using(crate::proofs::Sources::one_more))]
fn is_whole(op: &Op<u32>, shapes: &[Shape]) -> bool
    requires { All (λ p. p < length shapes.now) (operands_of op.now) }
    ensures { result ≡ is_whole (mapped (shape_at shapes.now) op.now) }
{
    op.touch(op.touch_count() - 1, shapes).whole
}

// The old bytes of the destination, if they were loaded after the sources, and else zeros.
fn old_bytes(op: &Op<u32>, loaded: &[Bytes], room: Room) -> Target
    requires { (bytes : List ℕ) → slice_get loaded.now (length (sources_of op.now)) ≡ Some bytes → length bytes ≡ length room }
    ensures bytes { result ≡ slice_index_or loaded.now (length (sources_of op.now)) room }
    ensures long { length result ≡ length room }
{
    match loaded.get(source_count(op)) {
        Some(old) => room.into_copy(old),
        None => room.into_zeros(),
    }
}

// The same, or any bytes where the operation leaves none of them.
fn first_bytes(op: &Op<u32>, shapes: &[Shape], loaded: &[Bytes], room: Room) -> Target
    requires runnable { IsRunnable shapes.now op.now loaded.now }
    requires room { room ≡ no_old shapes.now op.now }
    ensures long { length result ≡ bytes_of (shape_at shapes.now (destination_of op.now)) }
    ensures same { LeadsOn shapes.now op.now result (slice_index_or loaded.now (length (sources_of op.now)) (no_old shapes.now op.now)) }
{
    whole_leaves_nothing_old();
    if is_whole(op, shapes) {
        return room.into_any();
    }
    old_bytes(op, loaded, room)
}

// What a command stores, in a slice of the old bytes.
fn store_in(op: &Op<u32>, shapes: &[Shape], loaded: &[Bytes], out: &mut [u8])
    requires runnable { IsRunnable shapes.now op.now loaded.now }
    requires long { length out.old ≡ bytes_of (shape_at shapes.now (destination_of op.now)) }
    requires same { LeadsOn shapes.now op.now out.old (slice_index_or loaded.now (length (sources_of op.now)) (no_old shapes.now op.now)) }
    ensures { out.new ≡ stored_by shapes.now op.now loaded.now }
{
    run(op, shapes, loaded, out);
}

/// What a command stores. The room takes the old bytes where these were loaded.
pub(crate) fn stored_by(op: &Op<u32>, shapes: &[Shape], loaded: &[Bytes], room: Room) -> Contents
    requires runnable { IsRunnable shapes.now op.now loaded.now }
    requires room { room ≡ no_old shapes.now op.now }
    ensures stored { result ≡ stored_by shapes.now op.now loaded.now }
    ensures long { length result ≡ bytes_of (shape_at shapes.now (destination_of op.now)) }
{
    let mut out = first_bytes(op, shapes, loaded, room).into_bytes();
    store_in(op, shapes, loaded, out.as_mut_slice());
    Contents::own(out)
}

// What a clear stores, whatever was loaded. It takes no memory.
fn stored_by_clear(op: &Op<u32>, shapes: &[Shape], len: usize) -> Option<Contents>
    requires operands { All (λ p. p < length shapes.now) (operands_of op.now) }
    requires fits { fits (mapped (shape_at shapes.now) op.now) ≡ true }
    requires long { len ≡ bytes_of (shape_at shapes.now (destination_of op.now)) }
    ensures stored { IfSome result (λ contents. (loaded : List (List ℕ)) → contents ≡ stored_by shapes.now op.now loaded) }
    ensures long { IfSome result (λ contents. length contents ≡ len) }
{
    let Op::ClearImage { dst, value } = op else {
        return None;
    };
    Some(cleared(shape_at(shapes, *dst), *value, len))
}

// What any operation stores, by lanes and by bands.
fn stored_in_room<R: Threads + Sync>(
    rt: &R,
    helpers: usize,
    op: &Op<u32>,
    shapes: &[Shape],
    loaded: &[Bytes],
    room: Room,
) -> BytesMut
    requires runnable { IsRunnable shapes.now op.now loaded.now }
    requires room { room ≡ no_old shapes.now op.now }
    ensures stored { result.items ≡ stored_by shapes.now op.now loaded.now }
    ensures long { length result.items ≡ bytes_of (shape_at shapes.now (destination_of op.now)) }
{
    let out = first_bytes(op, shapes, loaded, room);
    run_fast(rt, helpers, op, shapes, loaded, out)
}

/// The same, by lanes and by bands. A clear stores nothing but its number.
pub(crate) fn stored_fast<R: Threads + Sync>(
    rt: &R,
    helpers: usize,
    op: &Op<u32>,
    shapes: &[Shape],
    loaded: &[Bytes],
    room: Room,
) -> Contents
    requires runnable { IsRunnable shapes.now op.now loaded.now }
    requires room { room ≡ no_old shapes.now op.now }
    ensures stored { result ≡ stored_by shapes.now op.now loaded.now }
    ensures long { length result ≡ bytes_of (shape_at shapes.now (destination_of op.now)) }
{
    if let Some(contents) = stored_by_clear(op, shapes, room.len()) {
        return contents;
    }
    Contents::own(stored_in_room(rt, helpers, op, shapes, loaded, room))
}
