//! Units that hold bytes only while they are wanted.

ghost use Rattle.std.specs.Prelude.{◌≡◌, ◌<◌, ◌≤◌, ◌+◌, ◌∷◌, ℕ, List, drop, length, OnOk};
ghost use Rattle.std.specs.List.{All};
ghost use Rattle.base.specs.Operands.{operands_of};
ghost use Rattle.base.specs.declared.op.Op.{Op};
ghost use Rattle.frame.specs.Valid.{shapes_in};
ghost use Rattle.frame.specs.Numbered.{numbered};
ghost use Rattle.frame_meaning.specs.Internal.Held.{IsAt, all_ops, all_released, all_settled, is_wanted, ops_at, ops_from, released, settled};
ghost use Rattle.frame_meaning.specs.Internal.Sizes.{IsRunnable};

use crate::bytes::{Bytes, first_bytes, shape_of};
use crate::ops::ops_of;
use crate::stored::{destination, is_whole};
use crate::wanted::is_wanted;
use base::{NoMemory, Op};
use frame::ValidFrame;
use kernel::whole_leaves_nothing_old;
use std::alloc::Global;

impl Bytes {
    /// Gives a unit that holds nothing its first bytes.
    pub fn settle(&mut self, alloc: Global, frame: &ValidFrame, unit: u32) -> Result<(), NoMemory>
        requires unit { unit < length (numbered frame.now).units }
        requires count { length self.old ≡ length (numbered frame.now).units }
        ensures { OnOk result (self.new ≡ settled (numbered frame.now).units self.old unit) }
    {
        if !self.get(unit).is_empty() {
            return Ok(());
        }
        let bytes = first_bytes(alloc, frame, unit)?;
        self.put(unit, bytes);
        Ok(())
    }

    // Settles what an operation works on.
    fn settle_operands(
        &mut self,
        alloc: Global,
        frame: &ValidFrame,
        op: &Op<u32>,
    ) -> Result<(), NoMemory>
        requires operands { All (λ unit. unit < length (numbered frame.now).units) (operands_of op.now) }
        requires count { length self.old ≡ length (numbered frame.now).units }
        ensures { OnOk result (self.new ≡ all_settled (numbered frame.now).units self.old (operands_of op.now)) }
    {
        for j in 0..op.touch_count() {
            self.settle(alloc, frame, op.operand(j))?;
        }
        Ok(())
    }

    // Where an operation leaves no old byte, a destination that holds none gets any bytes in place of its first ones.
    fn make_room(&mut self, alloc: Global, frame: &ValidFrame, op: &Op<u32>) -> Result<(), NoMemory>
        requires runnable { IsRunnable (shapes_in (numbered frame.now)) op.now }
        requires count { length self.old ≡ length (numbered frame.now).units }
        ensures { OnOk result ((rest : List (Op ℕ)) → IsAt (numbered frame.now) (op.now ∷ rest) self.old → IsAt (numbered frame.now) (op.now ∷ rest) self.new) }
    {
        whole_leaves_nothing_old();
        let unit = destination(op);
        if !self.get(unit).is_empty() || !is_whole(op, frame.shapes()) {
            return Ok(());
        }
        let bytes = self.room(alloc, shape_of(frame, unit).bytes())?;
        self.put(unit, bytes);
        Ok(())
    }

    // Takes the bytes of a unit that is not wanted from `next` on.
    fn release(&mut self, alloc: Global, frame: &ValidFrame, pass: u32, next: usize, unit: u32)
        requires pass { pass < length (numbered frame.now).passes }
        requires next { next ≤ length (ops_at (numbered frame.now).passes pass) }
        requires unit { unit < length self.old }
        ensures { self.new ≡ released (is_wanted (numbered frame.now).exports (ops_from (numbered frame.now).passes pass next)) self.old unit }
    {
        if is_wanted(frame, pass, next, unit) {
            return;
        }
        self.clear(alloc, unit);
    }

    fn release_operands(
        &mut self,
        alloc: Global,
        frame: &ValidFrame,
        pass: u32,
        next: usize,
        op: &Op<u32>,
    )
        requires pass { pass < length (numbered frame.now).passes }
        requires next { next ≤ length (ops_at (numbered frame.now).passes pass) }
        requires operands { All (λ unit. unit < length self.old) (operands_of op.now) }
        ensures { self.new ≡ all_released (is_wanted (numbered frame.now).exports (ops_from (numbered frame.now).passes pass next)) self.old (operands_of op.now) }
    {
        for j in 0..op.touch_count() {
            self.release(alloc, frame, pass, next, op.operand(j));
        }
    }

    // Runs an operation of a pass, on units that hold bytes, and lets go what is not wanted after it.
    fn step(
        &mut self,
        alloc: Global,
        frame: &ValidFrame,
        pass: u32,
        k: usize,
    ) -> Result<(), NoMemory>
        requires pass { pass < length (numbered frame.now).passes }
        requires k { k < length (ops_at (numbered frame.now).passes pass) }
        requires at { IsAt (numbered frame.now) (ops_from (numbered frame.now).passes pass k) self.old }
        ensures { OnOk result (IsAt (numbered frame.now) (ops_from (numbered frame.now).passes pass (k + 1)) self.new) }
    {
        let ops = ops_of(frame, pass);
        let op = &ops[k];
        self.make_room(alloc, frame, op)?;
        self.settle_operands(alloc, frame, op)?;
        self.run_op(alloc, frame.shapes(), op);
        self.release_operands(alloc, frame, pass, k + 1, op);
        Ok(())
    }

    /// Runs the operations of a pass in order.
    pub fn run_pass(&mut self, alloc: Global, frame: &ValidFrame, pass: u32) -> Result<(), NoMemory>
        requires pass { pass < length (numbered frame.now).passes }
        requires at { IsAt (numbered frame.now) (all_ops (drop pass (numbered frame.now).passes)) self.old }
        ensures { OnOk result (IsAt (numbered frame.now) (all_ops (drop (pass + 1) (numbered frame.now).passes)) self.new) }
    {
        for k in 0..ops_of(frame, pass).len() {
            self.step(alloc, frame, pass, k)?;
        }
        Ok(())
    }
}
