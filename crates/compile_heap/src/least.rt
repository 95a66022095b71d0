//! The least offset of one resource.

ghost use Rattle.std.specs.Prelude.{◌≡◌, ◌<◌, ◌≤◌, ◌+◌, ◌%◌, ◌-◌, ◌^◌, ℕ, length, true, false};
ghost use Rattle.std.specs.List.{All};
ghost use Rattle.compile_heap.specs.Pairs.{has};
ghost use Rattle.compile_heap.specs.Placing.{number_at, collides, granule};
ghost use Rattle.compile_heap.specs.Internal.Moving.{Fits, IsLowest};
ghost use Rattle.compile_heap.specs.Internal.Rising.{IsRising};

use crate::Pairs;

/// Each resource begins at a multiple of so many bytes, as the pieces of a program do.
const GRANULE: u32 = 256;

// The first multiple of the granule from this one on at which resource i begins after resource j, or this one if the
// two may alias. Resource j begins before i would end here.
fn past(sizes: &[u32], ordered: &Pairs, offsets: &[u32], i: usize, offset: u32, j: usize) -> u32
    requires fits { Fits sizes.now offsets.now }
    requires count { ordered.now.count ≡ length sizes.now }
    requires i { i < length sizes.now }
    requires offset { offset ≤ 2 ^ 31 }
    requires aligned { offset % granule ≡ 0 }
    requires j { j < length sizes.now }
    requires begins { number_at offsets.now j < offset + number_at sizes.now i }
    ensures aligned { result % granule ≡ 0 }
    ensures up { offset ≤ result }
    ensures past { (later : ℕ) → result ≤ later → collides sizes.now (has ordered.now) offsets.now i later j ≡ false }
    ensures taken { (lower : ℕ) → offset ≤ lower → lower < result → lower % granule ≡ 0 → collides sizes.now (has ordered.now) offsets.now i lower j ≡ true }
    ensures near { (top : ℕ) → offset ≤ top + 255 → number_at offsets.now j + number_at sizes.now j ≤ top → result ≤ top + 255 }
{
    let end = offsets[j] + sizes[j];
    if offset < end && !ordered.may_alias(i, j) {
        end.div_ceil(GRANULE) * GRANULE
    } else {
        offset
    }
}

/// The least multiple of the granule at which a resource collides with none of the placed ones, which all end at `top`
/// at the latest. It is moved past one after another, up to the first that begins behind it: so do all later ones.
pub(crate) fn least_of(
    sizes: &[u32],
    ordered: &Pairs,
    offsets: &[u32],
    placed: &[usize],
    i: usize,
    top: u32,
) -> u32
    requires fits { Fits sizes.now offsets.now }
    requires count { ordered.now.count ≡ length sizes.now }
    requires placed { All (λ j. j < length sizes.now) placed.now }
    requires rising { IsRising offsets.now placed.now }
    requires ends { All (λ j. number_at offsets.now j + number_at sizes.now j ≤ top) placed.now }
    requires i { i < length sizes.now }
    requires top { top < 2 ^ 31 - 256 }
    ensures lowest { IsLowest sizes.now (has ordered.now) offsets.now placed.now i result }
    ensures near { result ≤ top + 255 }
{
    let mut offset = 0;
    for j in placed {
        if offset + sizes[i] <= offsets[*j] {
            return offset;
        }
        offset = past(sizes, ordered, offsets, i, offset, *j);
    }
    offset
}
