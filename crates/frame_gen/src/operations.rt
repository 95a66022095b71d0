//! What the passes do.

ghost use Rattle.std.specs.Prelude.{◌≡◌, ◌<◌, ◌+◌, ◌*◌, ◌%◌, IfOk, map};
ghost use Rattle.frame_gen.specs.Generated.{spot};
ghost use Rattle.frame_gen.specs.Operations.{drawn, kind_of, earlier, first_source, second_source, op_by, reads_by};
ghost use Rattle.base.specs.declared.op.Op.TheVariants.{CopyImage};

use crate::names::spot;
use base::{Fun, List, NoMemory, Op};
use frame::Spot;
use std::alloc::Global;

/// What the first pass is made of.
pub(crate) fn first_drawn(number: u32) -> u32
    ensures { result ≡ drawn number 0 }
{
    number % 65_537
}

/// What the pass after one is made of.
pub(crate) fn next_drawn(w: u32) -> u32
    requires { w < 65537 }
    ensures next { result ≡ (75 * w + 74) % 65537 }
    ensures small { result < 65537 }
{
    (75 * w + 74) % 65_537
}

/// 0 for the first pass, which has nothing to read.
pub(crate) fn kind_of(w: u32, i: u32) -> u32
    ensures { result ≡ kind_of w i }
{
    if i == 0 { 0 } else { w % 5 }
}

// The remainder, where something is divided at all.
fn earlier(n: u32, i: u32) -> u32
    ensures { result ≡ earlier n i }
{
    if i == 0 { 0 } else { n % i }
}

pub(crate) fn first_source(w: u32, i: u32) -> u32
    ensures { result ≡ first_source w i }
{
    earlier(w / 5, i)
}

pub(crate) fn second_source(w: u32, i: u32) -> u32
    ensures { result ≡ second_source w i }
{
    earlier(w / 25, i)
}

fn whole_copy(src: Spot, dst: Spot) -> Op<Spot>
    ensures { result ≡ CopyImage src dst 0 0 0 0 64 64 }
{
    Op::CopyImage {
        src,
        dst,
        src_x: 0,
        src_y: 0,
        dst_x: 0,
        dst_y: 0,
        width: 64,
        height: 64,
    }
}

/// The operation of this kind.
pub(crate) fn op_by(kind: u32, w: u32, a: Spot, b: Spot, dst: Spot) -> Op<Spot>
    ensures { result ≡ op_by kind w a b dst }
{
    match kind {
        0 => Op::Ramp {
            dst,
            base: w,
            dx: 1,
            dy: 64,
        },
        1 => Op::Map {
            src: a,
            dst,
            fun: Fun::Add,
            value: w,
        },
        2 => Op::Combine {
            a,
            b,
            dst,
            fun: Fun::Xor,
        },
        3 => Op::Box3 { src: a, dst },
        _ => whole_copy(a, dst),
    }
}

/// What an operation of this kind reads, each resource once.
pub(crate) fn reads_by(alloc: Global, kind: u32, a: u32, b: u32) -> Result<List<Spot>, NoMemory>
    ensures { IfOk result (λ reads. reads ≡ map spot (reads_by kind a b)) }
{
    let mut reads = List::new(alloc);
    if kind == 0 {
        return Ok(reads);
    }
    reads.push(spot(a))?;
    if kind == 2 && a != b {
        reads.push(spot(b))?;
    }
    Ok(reads)
}
