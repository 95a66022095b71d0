//! What resources take at least of which no two may alias.

ghost use Rattle.std.specs.Prelude.{◌≡◌, ◌<◌, ◌≤◌, ◌+◌, ◌^◌, length};
ghost use Rattle.std.specs.List.{All};
ghost use Rattle.compile_bound.specs.Bounds.{greatest_gap, low, rounded, rounded_sum};

/// A resource in a heap begins at a multiple of so many bytes.
const GRANULE: u64 = 256;

// How many bytes lie between the begin of a resource and that of the next one at least.
fn rounded(size: u32) -> u64
    ensures rounded { result ≡ rounded size }
    ensures most { size ≤ result }
    ensures small { result < 2 ^ 33 }
{
    u64::from(size).next_multiple_of(GRANULE)
}

fn rounded_sum(sizes: &[u32], chosen: &[u32]) -> u64
    requires few { length chosen.now ≤ 2 ^ 16 + 1 }
    requires chosen { All (λ r. r < length sizes.now) chosen.now }
    ensures { result ≡ rounded_sum sizes.now chosen.now }
{
    let mut sum = 0;
    for r in chosen {
        sum += rounded(sizes[*r as usize]);
    }
    sum
}

#[tactic(auto, using(crate::proofs::LowSums::gap_more, crate::proofs::LowSums::gap_end))]
fn greatest_gap(sizes: &[u32], chosen: &[u32]) -> u64
    requires { All (λ r. r < length sizes.now) chosen.now }
    ensures { result ≡ greatest_gap sizes.now chosen.now }
{
    let mut gap = 0;
    for r in chosen {
        let size = sizes[*r as usize];
        gap = gap.max(rounded(size) - u64::from(size));
    }
    gap
}

/// The rounded sizes together, less the greatest difference that rounding makes.
pub(crate) fn low(sizes: &[u32], chosen: &[u32]) -> u64
    requires few { length chosen.now ≤ 2 ^ 16 + 1 }
    requires chosen { All (λ r. r < length sizes.now) chosen.now }
    ensures { result ≡ low sizes.now chosen.now }
{
    rounded_sum(sizes, chosen).saturating_sub(greatest_gap(sizes, chosen))
}
