//! Resources of which no two may alias.

ghost use Rattle.std.specs.Prelude.{◌≡◌, ◌<◌, ◌≤◌, ◌+◌, ◌==◌, ◌&&◌, [], ◌∷◌, IfOk, OnOk, length, nat_lt, not};
ghost use Rattle.std.specs.List.{All, fold, position_or_len};
ghost use Rattle.compile_bound.specs.Choices.{is_apart, joined};
ghost use Rattle.compile_heap.specs.Pairs.{has};
ghost use Rattle.compile_heap.specs.Placing.{may_alias};

use base::NoMemory;
use compile_heap::Pairs;
use std::alloc::Global;

fn are_apart(ordered: &Pairs, s: u32, r: u32) -> bool
    requires s { s < ordered.now.count }
    requires r { r < ordered.now.count }
    ensures { result ≡ (not (s == r) && not (may_alias (has ordered.now) s r)) }
{
    s != r && !(ordered.has(s, r) || ordered.has(r, s))
}

fn is_apart(ordered: &Pairs, s: u32, chosen: &[u32]) -> bool
    requires s { s < ordered.now.count }
    requires chosen { All (λ r. r < ordered.now.count) chosen.now }
    ensures { result ≡ is_apart (has ordered.now) s chosen.now }
{
    for r in chosen {
        if !are_apart(ordered, s, *r) {
            return false;
        }
    }
    true
}

// Where a resource stands in rising number.
fn rising_place(chosen: &[u32], s: u32) -> usize
    ensures place { result ≡ position_or_len (nat_lt s) chosen.now }
    ensures within { result ≤ length chosen.now }
{
    for (place, r) in chosen.iter().enumerate() {
        if s < *r {
            return place;
        }
    }
    chosen.len()
}

// The resource is chosen too, if it is apart from those that are.
fn join(chosen: &mut Vec<u32>, ordered: &Pairs, s: u32) -> Result<(), NoMemory>
    requires s { s < ordered.now.count }
    requires chosen { All (λ r. r < ordered.now.count) chosen.old.items }
    ensures { OnOk result (chosen.new.items ≡ joined (has ordered.now) chosen.old.items s) }
{
    if is_apart(ordered, s, chosen) {
        let place = rising_place(chosen, s);
        chosen.insert(place, s)?;
    }
    Ok(())
}

/// The choice that begins with a resource and goes through all of them in this order.
#[tactic(auto, using(crate::proofs::Inserted::joined_all, crate::proofs::Inserted::joined_length))]
pub(crate) fn choice_of(
    alloc: Global,
    ordered: &Pairs,
    order: &[u32],
    r: u32,
) -> Result<Vec<u32>, NoMemory>
    requires r { r < ordered.now.count }
    requires order { All (λ s. s < ordered.now.count) order.now }
    ensures choice { IfOk result (λ chosen. chosen.items ≡ fold (joined (has ordered.now)) (r ∷ []) order.now) }
    ensures within { IfOk result (λ chosen. All (λ s. s < ordered.now.count) chosen.items) }
    ensures count { IfOk result (λ chosen. length chosen.items ≤ length order.now + 1) }
{
    let mut chosen = Vec::from_slice(alloc, &[r])?;
    for s in order {
        join(&mut chosen, ordered, *s)?;
    }
    Ok(chosen)
}
