//! The bytes of all units.

ghost use Rattle.std.specs.Prelude.{◌≡◌, ◌<◌, ◌+◌, true, false, [], map, replicate, length, IfOk, IfSome, slice_get, slice_set, slice_index_or};
ghost use Rattle.std.specs.List.{All};
ghost use Rattle.base.specs.Applied.{applied, bytes_at, after_op};
ghost use Rattle.base.specs.Fits.{fits};
ghost use Rattle.base.specs.InPlace.{in_place};
ghost use Rattle.base.specs.Operands.{sources_of, destination_of, operands_of, mapped};
ghost use Rattle.base.specs.Shapes.{bytes_of, shape_at};
ghost use Rattle.frame.specs.Valid.{shapes_in};
ghost use Rattle.frame.specs.Numbered.{numbered};
ghost use Rattle.frame_meaning.specs.Meaning.{first_bytes, after_ops};
ghost use Rattle.frame_meaning.specs.Internal.Sizes.{AreSized, IsRunnable};

use crate::spare::{Spare, zeros};
use crate::stored::destination;
use base::{List, NoMemory, Op, Shape};
use frame::ValidFrame;
use kernel::{apply, draw};
use std::alloc::Global;
use std::marker::Model;
use std::mem;

/// The bytes of each unit.
#[derive(Drop)]
pub(crate) struct Bytes {
    units: Vec<List<u8>>,
    spare: Spare,
}

impl Model for Bytes {
    ghost use Rattle.std.specs.Prelude.{ℕ, List};

    ghost Value = { List (List ℕ) };

    ghost view = { λ b. b.units.items };
}

pub(crate) fn shape_of(frame: &ValidFrame, unit: u32) -> Shape
    requires { unit < length (numbered frame.now).units }
    ensures unit { IfSome (slice_get (numbered frame.now).units unit) (λ u. result ≡ u.shape) }
    ensures at { result ≡ shape_at (shapes_in (numbered frame.now)) unit }
{
    frame.shapes()[unit as usize]
}

/// What a unit holds before the first pass.
pub(crate) fn first_bytes(
    alloc: Global,
    frame: &ValidFrame,
    unit: u32,
) -> Result<List<u8>, NoMemory>
    requires { unit < length (numbered frame.now).units }
    ensures { IfOk result (λ bytes. IfSome (slice_get (numbered frame.now).units unit) (λ u. bytes ≡ first_bytes u)) }
{
    match frame.import(unit) {
        Some(bytes) => List::from_slice(alloc, bytes),
        None => zeros(alloc, shape_of(frame, unit).bytes()),
    }
}

impl Bytes {
    /// Those before the first pass.
    pub fn new(alloc: Global, frame: &ValidFrame) -> Result<Bytes, NoMemory>
        ensures { IfOk result (λ bytes. bytes ≡ map first_bytes (numbered frame.now).units) }
    {
        let mut units = Vec::new(alloc);
        for unit in 0..frame.unit_count() {
            units.push(first_bytes(alloc, frame, unit)?)?;
        }
        Ok(Bytes {
            units,
            spare: Spare::new(alloc),
        })
    }

    /// No bytes in any unit.
    pub fn none(alloc: Global, count: u32) -> Result<Bytes, NoMemory>
        ensures { IfOk result (λ bytes. bytes ≡ replicate count []) }
    {
        let mut units = Vec::new(alloc);
        for _ in 0..count {
            units.push(List::new(alloc))?;
        }
        Ok(Bytes {
            units,
            spare: Spare::new(alloc),
        })
    }

    pub fn get(&self, unit: u32) -> &[u8]
        requires { unit < length self.now }
        ensures { result.now ≡ bytes_at self.now unit }
    {
        &self.units[unit as usize]
    }

    /// Takes the bytes of a unit out.
    pub fn take(&mut self, alloc: Global, unit: u32) -> List<u8>
        requires { unit < length self.old }
        ensures bytes { result ≡ bytes_at self.old unit }
        ensures rest { self.new ≡ slice_set self.old unit [] }
    {
        mem::replace(&mut self.units[unit as usize], List::new(alloc))
    }

    pub fn put(&mut self, unit: u32, bytes: List<u8>)
        requires { unit < length self.old }
        ensures { self.new ≡ slice_set self.old unit bytes }
    {
        self.units[unit as usize] = bytes;
    }

    /// Leaves a unit without bytes. Their memory serves `room`.
    pub fn clear(&mut self, alloc: Global, unit: u32)
        requires { unit < length self.old }
        ensures { self.new ≡ slice_set self.old unit [] }
    {
        let bytes = self.take(alloc, unit);
        self.spare.keep(bytes);
    }

    /// So many bytes, whatever they are.
    pub fn room(&mut self, alloc: Global, count: u128) -> Result<List<u8>, NoMemory>
        ensures count { IfOk result (λ bytes. length bytes ≡ count) }
        ensures same { self.new ≡ self.old }
    {
        self.spare.room(alloc, count)
    }

    // The bytes of a source; none where the operation has no such source.
    fn source(&self, op: &Op<u32>, k: u32) -> &[u8]
        requires k { k < 3 }
        requires operands { All (λ unit. unit < length self.now) (operands_of op.now) }
        ensures { result.now ≡ slice_index_or (map (bytes_at self.now) (sources_of op.now)) k [] }
    {
        if k + 1 < op.touch_count() {
            self.get(op.operand(k))
        } else {
            &[]
        }
    }

    // What an operation leaves in `out`, which holds the destination's old bytes.
    fn store(&self, shapes: &[Shape], op: &Op<u32>, out: &mut [u8])
        requires count { length self.now ≡ length shapes.now }
        requires operands { All (λ unit. unit < length shapes.now) (operands_of op.now) }
        requires fits { fits (mapped (shape_at shapes.now) op.now) ≡ true }
        requires sources { All (λ unit. length (bytes_at self.now unit) ≡ bytes_of (shape_at shapes.now unit)) (sources_of op.now) }
        requires out { length out.old ≡ bytes_of (shape_at shapes.now (destination_of op.now)) }
        ensures { out.new ≡ applied shapes.now op.now (map (bytes_at self.now) (sources_of op.now)) out.old }
    {
        if let Op::Draw { dst, clear, rects } = op {
            draw(shapes[*dst as usize], *clear, rects, out)
        } else {
            apply(
                op,
                shapes,
                self.source(op, 0),
                self.source(op, 1),
                self.source(op, 2),
                out,
            )
        }
    }

    /// Runs an operation on units that hold all their bytes.
    pub fn run_op(&mut self, alloc: Global, shapes: &[Shape], op: &Op<u32>)
        requires count { length self.old ≡ length shapes.now }
        requires sized { All (λ unit. length (bytes_at self.old unit) ≡ bytes_of (shape_at shapes.now unit)) (operands_of op.now) }
        requires operands { All (λ unit. unit < length shapes.now) (operands_of op.now) }
        requires fits { fits (mapped (shape_at shapes.now) op.now) ≡ true }
        requires apart { in_place op.now ≡ false }
        ensures bytes { self.new ≡ after_op shapes.now self.old op.now }
        ensures sized { length (bytes_at self.new (destination_of op.now)) ≡ bytes_of (shape_at shapes.now (destination_of op.now)) }
    {
        let dst = destination(op);
        let mut out = self.take(alloc, dst).into_vec();
        self.store(shapes, op, &mut out);
        self.put(dst, List::from_vec(out));
    }

    /// Runs operations in order.
    pub fn run(&mut self, alloc: Global, shapes: &[Shape], ops: &[Op<u32>])
        requires sized { AreSized shapes.now self.old }
        requires ops { All (IsRunnable shapes.now) ops.now }
        ensures bytes { self.new ≡ after_ops shapes.now self.old ops.now }
        ensures sized { AreSized shapes.now self.new }
    {
        for op in ops {
            self.run_op(alloc, shapes, op);
        }
    }
}
