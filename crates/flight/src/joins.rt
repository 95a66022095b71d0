//! The join pass of a frame in a window: whole copies of what earlier frames left under persisting names.

ghost use Rattle.std.specs.Prelude.{◌≡◌, ◌++◌, ◌<◌, IfOk, OnOk, length, map, true};
ghost use Rattle.std.specs.List.{All};
ghost use Rattle.base.specs.Bounds.{size_allowed};
ghost use Rattle.flight.specs.Internal.Left.{carried, carries_by, carry_by};
ghost use Rattle.law_window.specs.NamedJoins.{named_copy, named_join, named_joins, named_renewal, size_of, whole};

use crate::names::{join_name, numbered_name};
use base::{List, Name, NoMemory, Op};
use frame::{Pass, Resource, Spot, Write};
use std::alloc::Global;

/// A whole buffer that is copied from one name to another.
#[derive(Clone, Copy, Debug)]
pub(crate) struct Carry {
    pub from: Name,
    pub to: Name,
    /// In bytes.
    pub size: u32,
}

#[tactic(auto, using(crate::proofs::Sizes::size_fits, crate::proofs::Sizes::size_here, crate::proofs::Sizes::size_nowhere))]
pub(crate) fn size_of(resources: &[Resource], k: usize) -> u32
    requires { All (λ r. size_allowed r.shape ≡ true) resources.now }
    ensures { result ≡ size_of resources.now k }
{
    if k < resources.len() {
        resources[k].shape.bytes() as u32
    } else {
        0
    }
}

fn carry_by(
    i: usize,
    resources: &[Resource],
    holder: Option<usize>,
    name: Option<Name>,
) -> Option<Carry>
    requires few { i < 10 }
    requires sizes { All (λ r. size_allowed r.shape ≡ true) resources.now }
    ensures { result ≡ carry_by i resources.now holder name }
{
    match (holder, name) {
        (Some(k), Some(from)) => Some(Carry {
            from,
            to: numbered_name(i, k),
            size: size_of(resources, k),
        }),
        _ => None,
    }
}

/// What is copied for frame `i`, in the order of the persisting names.
#[tactic(auto, using(crate::proofs::Walks::carry_on, crate::proofs::Walks::no_carry_on, crate::proofs::Walks::carries_end))]
pub(crate) fn carries_by(
    alloc: Global,
    i: usize,
    resources: &[Resource],
    holders: &[Option<usize>],
    left: &[Option<Name>],
) -> Result<List<Carry>, NoMemory>
    requires few { i < 10 }
    requires sizes { All (λ r. size_allowed r.shape ≡ true) resources.now }
    requires each { length holders.now ≡ length left.now }
    ensures { IfOk result (λ carries. carries ≡ carries_by i resources.now holders.now left.now) }
{
    let mut carries = List::new(alloc);
    for (k, holder) in holders.iter().enumerate() {
        if let Some(carry) = carry_by(i, resources, *holder, left[k]) {
            carries.push(carry)?;
        }
    }
    Ok(carries)
}

fn whole(name: Name) -> Spot
    ensures { result ≡ whole name }
{
    Spot { name, layer: None }
}

fn reads(alloc: Global, carries: &[Carry]) -> Result<List<Spot>, NoMemory>
    ensures { IfOk result (λ reads. reads ≡ map (λ carry. whole carry.from) carries.now) }
{
    let mut reads = List::new(alloc);
    for carry in carries {
        reads.push(whole(carry.from))?;
    }
    Ok(reads)
}

fn writes(alloc: Global, carries: &[Carry]) -> Result<List<Write<Spot>>, NoMemory>
    ensures { IfOk result (λ writes. writes ≡ map (λ carry. named_renewal (carried carry)) carries.now) }
{
    let mut writes = List::new(alloc);
    for carry in carries {
        writes.push(Write {
            what: whole(carry.to),
            fresh: true,
        })?;
    }
    Ok(writes)
}

fn copies(alloc: Global, carries: &[Carry]) -> Result<List<Op<Spot>>, NoMemory>
    ensures { IfOk result (λ ops. ops ≡ map (λ carry. named_copy (carried carry)) carries.now) }
{
    let mut ops = List::new(alloc);
    for carry in carries {
        ops.push(Op::CopyBuffer {
            src: whole(carry.from),
            dst: whole(carry.to),
            src_offset: 0,
            dst_offset: 0,
            size: carry.size,
        })?;
    }
    Ok(ops)
}

#[tactic(auto, using(crate::proofs::Walks::reads_carried, crate::proofs::Walks::writes_carried, crate::proofs::Walks::ops_carried))]
fn join(alloc: Global, i: usize, queue: Name, carries: &[Carry]) -> Result<Pass, NoMemory>
    requires { i < 10 }
    ensures { IfOk result (λ pass. pass ≡ named_join i queue (map carried carries.now)) }
{
    Ok(Pass {
        name: join_name(i),
        queue,
        reads: reads(alloc, carries)?,
        writes: writes(alloc, carries)?,
        ops: copies(alloc, carries)?,
        side_effect: false,
    })
}

/// Adds the join pass of frame `i`, where there is something to copy.
#[tactic(auto, using(crate::proofs::Walks::join_added, crate::proofs::Walks::nothing_joined))]
pub(crate) fn add_join(
    alloc: Global,
    passes: &mut List<Pass>,
    i: usize,
    queue: Name,
    carries: &[Carry],
) -> Result<(), NoMemory>
    requires { i < 10 }
    ensures { OnOk result (passes.new ≡ passes.old ++ named_joins i queue (map carried carries.now)) }
{
    if carries.is_empty() {
        return Ok(());
    }
    passes.push(join(alloc, i, queue, carries)?)
}
