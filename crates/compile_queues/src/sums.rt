//! For each command the greatest sum of costs on a path that ends at it, in one sweep.

ghost use Rattle.std.specs.Prelude.{◌≡◌, ◌<◌, ◌≤◌, ◌==◌, length, map, max, replicate, slice_index_or, true, IfOk};
ghost use Rattle.std.specs.List.{All, list_any, range_with_len};
ghost use Rattle.compile_queues.specs.Internal.Spans.{AreWithin, is_by, precedes, steps};
ghost use Rattle.compile_queues.specs.Internal.Sweep.{AreSums, GoesForward, IsTop, most_cost};
ghost use Rattle.compile_queues.specs.Internal.Work.{places};
ghost use Rattle.compile_queues.specs.Cost.{cost_at};

use crate::spans::Span;
use crate::work::Work;
use base::{List, NoMemory};
use compile_groups::Use;
use std::alloc::Global;

// 0 for a command that the sweep has not come to.
fn sum_at(sums: &[u64], command: u32) -> u64
    ensures { result ≡ cost_at sums.now command }
{
    match sums.get(command as usize) {
        Some(sum) => *sum,
        None => 0,
    }
}

// The sum of the command of a use, if it is of the unit.
#[tactic(auto, using(crate::proofs::Tops::top_use))]
fn sum_by(sums: &[u64], one: &Use, unit: u32) -> u64
    ensures { IsTop (λ c. is_by unit c one.now) sums.now (length sums.now) result }
{
    if one.unit == unit {
        sum_at(sums, one.command)
    } else {
        0
    }
}

// The greatest of the sums of the commands that use the unit in a group.
#[tactic(auto, using(crate::proofs::Tops::in_more, crate::proofs::Tops::in_all, crate::proofs::Tops::in_none))]
fn most_in(sums: &[u64], group: &[Use], unit: u32) -> u64
    ensures { IsTop (λ c. list_any (is_by unit c) group.now) sums.now (length sums.now) result }
{
    let mut most = 0;
    for one in group {
        most = most.max(sum_by(sums, one, unit));
    }
    most
}

// The greatest of the sums of the commands that the command of use j needs by it.
#[tactic(auto, using(crate::proofs::Tops::before_is, crate::proofs::Tops::within_at))]
fn most_before(sums: &[u64], uses: &[Use], spans: &[Span], j: usize) -> u64
    requires spans { j < length spans.now }
    requires uses { j < length uses.now }
    requires within { AreWithin uses.now spans.now }
    ensures { IsTop (λ c. precedes uses.now spans.now c j) sums.now (length sums.now) result }
{
    let span = spans[j];
    let group = &uses[span.from..span.to];
    most_in(sums, group, uses[j].unit)
}

// The same by all uses of a command.
#[tactic(auto, using(crate::proofs::Tops::needed_more, crate::proofs::Tops::needed_all, crate::proofs::Tops::needed_none, crate::proofs::Tops::item_below))]
fn most_needed(sums: &[u64], uses: &[Use], spans: &[Span], places: &[usize]) -> u64
    requires spans { length spans.now ≡ length uses.now }
    requires places { All (λ j. j < length uses.now) places.now }
    requires within { AreWithin uses.now spans.now }
    ensures { IsTop (λ c. list_any (precedes uses.now spans.now c) places.now) sums.now (length sums.now) result }
{
    let mut most = 0;
    for j in places {
        most = most.max(most_before(sums, uses, spans, *j));
    }
    most
}

// The numbers of the uses by command d.
#[tactic(auto, using(crate::proofs::Tops::place_is, crate::proofs::Tops::places_there))]
fn places_at(work: &Work, d: u32) -> &[usize]
    requires d { d < length work.now.costs }
    requires places { work.now.places ≡ map (places work.now.uses) (range_with_len 0 (length work.now.costs)) }
    ensures { result.now ≡ places work.now.uses d }
{
    &work.places[d as usize]
}

// The greatest of the sums of the commands that lead to command d, of which this is that along its queue.
#[tactic(auto, using(crate::proofs::Tops::places_below, crate::proofs::Tops::top_at))]
fn most_at(work: &Work, queues: &[u32], spans: &[Span], sums: &[u64], along: u64, d: u32) -> u64
    requires d { d < length queues.now }
    requires queues { length queues.now ≡ length work.now.costs }
    requires spans { length spans.now ≡ length work.now.uses }
    requires within { AreWithin work.now.uses spans.now }
    requires places { work.now.places ≡ map (places work.now.uses) (range_with_len 0 (length work.now.costs)) }
    requires sums { length sums.now ≡ d }
    requires along { IsTop (λ k. slice_index_or queues.now k 0 == slice_index_or queues.now d 0) sums.now d along }
    ensures top { IsTop (λ c. steps queues.now work.now.uses spans.now c d) sums.now d result }
    ensures along { along ≤ result }
{
    let places = places_at(work, d);
    let needed = most_needed(sums, &work.uses, spans, places);
    along.max(needed)
}

fn zeros(alloc: Global, count: usize) -> Result<List<u64>, NoMemory>
    ensures { IfOk result (λ zeros. zeros ≡ replicate count 0) }
{
    let mut zeros = List::new(alloc);
    for _queue in 0..count {
        zeros.push(0)?;
    }
    Ok(zeros)
}

/// For each command the greatest sum of costs on a path that ends at it, each from those before it.
#[tactic(auto, using(crate::proofs::Totals::sums_none, crate::proofs::Totals::on_none))]
pub(crate) fn sums_of(
    alloc: Global,
    work: &Work,
    queues: &[u32],
    spans: &[Span],
) -> Result<List<u64>, NoMemory>
    requires queues { length queues.now ≡ length work.now.costs }
    requires below { All (λ q. q < length work.now.families) queues.now }
    requires spans { length spans.now ≡ length work.now.uses }
    requires within { AreWithin work.now.uses spans.now }
    requires places { work.now.places ≡ map (places work.now.uses) (range_with_len 0 (length work.now.costs)) }
    requires few { length work.now.costs ≤ 288 }
    requires small { All (λ cost. cost ≤ most_cost) work.now.costs }
    requires forward { GoesForward (steps queues.now work.now.uses spans.now) }
    ensures { IfOk result (λ sums. AreSums (steps queues.now work.now.uses spans.now) work.now.costs sums (length work.now.costs)) }
{
    let costs = work.costs.as_slice();
    let mut on = zeros(alloc, work.families.len())?.into_vec();
    let mut sums = List::new(alloc);
    for d in 0..costs.len() as u32 {
        let queue = queues[d as usize] as usize;
        let before = most_at(work, queues, spans, &sums, on[queue], d);
        let sum = costs[d as usize] + before;
        sums.push(sum)?;
        on[queue] = sum;
    }
    Ok(sums)
}

/// The greatest of all sums.
#[tactic(auto, using(crate::proofs::Tops::greatest_more, crate::proofs::Tops::greatest_all, crate::proofs::Tops::greatest_none))]
pub(crate) fn greatest(sums: &[u64]) -> u64
    ensures { IsTop (λ k. true) sums.now (length sums.now) result }
{
    let mut most = 0;
    for sum in sums {
        most = most.max(*sum);
    }
    most
}
