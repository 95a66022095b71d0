//! The passes.

ghost use Rattle.std.specs.Prelude.{◌≡◌, ◌<◌, ◌∷◌, [], true, IfOk, map};
ghost use Rattle.std.specs.List.{range_with_len};
ghost use Rattle.frame_gen.specs.Generated.{spot, queue_by, pass_by};
ghost use Rattle.frame_gen.specs.Operations.{drawn, kind_of, first_source, second_source, op_by};

use crate::names::{letter, pass_name, spot};
use crate::operations::{
    first_drawn, first_source, kind_of, next_drawn, op_by, reads_by, second_source,
};
use base::{List, Name, NoMemory, Op};
use frame::{Pass, Spot, Write};
use std::alloc::Global;

// Copies are on the transfer queue.
fn queue_by(kind: u32, w: u32) -> Name
    ensures { result ≡ queue_by kind w }
{
    if kind == 4 {
        return letter(b't');
    }
    if w / 125 % 2 == 0 {
        letter(b'g')
    } else {
        letter(b'c')
    }
}

fn write_of(alloc: Global, i: u32) -> Result<List<Write<Spot>>, NoMemory>
    ensures { IfOk result (λ writes. writes ≡ record { what = spot i; fresh = true } ∷ []) }
{
    let mut writes = List::new(alloc);
    writes.push(Write {
        what: spot(i),
        fresh: true,
    })?;
    Ok(writes)
}

fn ops_by(alloc: Global, w: u32, i: u32) -> Result<List<Op<Spot>>, NoMemory>
    ensures { IfOk result (λ ops. ops ≡ op_by (kind_of w i) w (spot (first_source w i)) (spot (second_source w i)) (spot i) ∷ []) }
{
    let a = spot(first_source(w, i));
    let b = spot(second_source(w, i));
    let mut ops = List::new(alloc);
    ops.push(op_by(kind_of(w, i), w, a, b, spot(i)))?;
    Ok(ops)
}

fn pass_by(alloc: Global, w: u32, i: u32) -> Result<Pass, NoMemory>
    ensures { IfOk result (λ pass. pass ≡ pass_by w i) }
{
    let kind = kind_of(w, i);
    Ok(Pass {
        name: pass_name(i),
        queue: queue_by(kind, w),
        reads: reads_by(alloc, kind, first_source(w, i), second_source(w, i))?,
        writes: write_of(alloc, i)?,
        ops: ops_by(alloc, w, i)?,
        side_effect: false,
    })
}

#[tactic(auto, using(crate::proofs::Walking::entry_more, crate::proofs::Walking::drawn_more))]
pub(crate) fn passes(alloc: Global, number: u32, count: u32) -> Result<List<Pass>, NoMemory>
    ensures { IfOk result (λ passes. passes ≡ map (λ i. pass_by (drawn number i) i) (range_with_len 0 count)) }
{
    let mut passes = List::new(alloc);
    let mut w = first_drawn(number);
    for i in 0..count {
        passes.push(pass_by(alloc, w, i)?)?;
        w = next_drawn(w);
    }
    Ok(passes)
}
