//! The bound and its certificate.

ghost use Rattle.std.specs.Prelude.{◌≡◌, ◌<◌, ◌≤◌, ◌^◌, IfOk, length, nat_lt, if◌then◌else◌};
ghost use Rattle.std.specs.List.{All};
ghost use Rattle.compile_bound.specs.Bounds.{Holds, IsBound, IsShown};
ghost use Rattle.compile_bound.specs.Choices.{falling};
ghost use Rattle.compile_bound.specs.Internal.Chosen.{IsChoice};
ghost use Rattle.compile_heap.specs.Pairs.{has};

use crate::choices::choice_of;
use crate::lows::low;
use crate::order::falling;
use base::{List, NoMemory};
use compile_heap::Pairs;
use std::alloc::Global;

/// How many bytes no heap is smaller than, with its certificate: resources of which no two may lie in the same bytes.
#[derive(Debug, Drop)]
pub struct Bound {
    pub least: u64,
    /// By their numbers, which rise.
    pub chosen: List<u32>,
}

// What the choice shows that begins with a resource.
fn shown_by(
    alloc: Global,
    sizes: &[u32],
    ordered: &Pairs,
    order: &[u32],
    r: u32,
) -> Result<Bound, NoMemory>
    requires few { length sizes.now ≤ 2 ^ 16 }
    requires count { ordered.now.count ≡ length sizes.now }
    requires order { order.now ≡ falling sizes.now (length sizes.now) }
    requires within { All (λ s. s < length sizes.now) order.now }
    requires length { length order.now ≡ length sizes.now }
    requires r { r < length sizes.now }
    ensures { IfOk result (IsChoice sizes.now (has ordered.now) r) }
{
    let chosen = choice_of(alloc, ordered, order, r)?;
    let least = low(sizes, &chosen);
    Ok(Bound {
        least,
        chosen: List::from_vec(chosen),
    })
}

// The greater of two bounds; the first where they are equal.
fn greater(best: Bound, next: Bound) -> Bound
    ensures { result ≡ (if nat_lt best.least next.least then next else best) }
{
    if best.least < next.least { next } else { best }
}

/// How many bytes no legal placement of resources of these sizes is smaller than, with resources that show it. From each
/// resource a choice begins that goes through all others, the larger ones first, and takes in each that may alias none of those
/// that it has. Its sizes are rounded up to multiples of 256 bytes, and the greatest of the differences is taken off, since the
/// resource that lies last needs no room after it. The best choice is the certificate, and of equal ones the first.
///
/// The choices are made one after another, each in the square of the number of resources: n³ steps for n resources.
pub fn bound_of(alloc: Global, sizes: &[u32], ordered: &Pairs) -> Result<Bound, NoMemory>
    requires few { length sizes.now ≤ 2 ^ 16 }
    requires count { ordered.now.count ≡ length sizes.now }
    ensures bound { IfOk result (IsBound sizes.now (has ordered.now)) }
    ensures shown { IfOk result (IsShown sizes.now (has ordered.now)) }
    ensures holds { IfOk result (λ bound. Holds sizes.now (has ordered.now) bound.least) }
{
    let order = falling(alloc, sizes)?;
    if sizes.is_empty() {
        return Ok(Bound {
            least: 0,
            chosen: List::new(alloc),
        });
    }
    let mut best = shown_by(alloc, sizes, ordered, &order, 0)?;
    for r in 1..sizes.len() as u32 {
        let next = shown_by(alloc, sizes, ordered, &order, r)?;
        best = greater(best, next);
    }
    Ok(best)
}
