//! Reference counts: how many still need what a pass makes.

ghost use Rattle.std.specs.Prelude.{◌≡◌, ◌<◌, ◌≤◌, ◌^◌, ◌↔◌, ℕ, List, map, nat_lt, length, slice_index_or, OnOk, IfOk};
ghost use Rattle.std.specs.List.{All};
ghost use Rattle.frame_cull.specs.Internal.Counts.{IsNeeded, IsForward, times, count_of, refs_after, stack_after, root_counts, raised, counted, idle_from};

use base::{List, NoMemory};
use std::alloc::Global;

// Each pass of a row loses a reader. Those that lose the last go onto the stack.
fn lose(refs: &mut List<u32>, stack: &mut List<u32>, row: &[u32]) -> Result<(), NoMemory>
    requires within { All (λ w. w < length refs.old) row.now }
    requires enough { (w : ℕ) → times w row.now ≤ count_of refs.old w }
    ensures refs { OnOk result (refs.new ≡ refs_after row.now refs.old) }
    ensures stack { OnOk result (stack.new ≡ stack_after row.now refs.old stack.old) }
{
    for maker in row {
        let left = refs[*maker as usize] - 1;
        refs.set(*maker as usize, left);
        if left == 0 {
            stack.push(*maker)?;
        }
    }
    Ok(())
}

// How many readers each pass has, one more where it is a root.
fn counted(alloc: Global, sources: &[List<u32>], roots: &[bool]) -> Result<List<u32>, NoMemory>
    requires within { (q : ℕ) (d : List ℕ) → q < length sources.now → All (λ w. w < length roots.now) (slice_index_or sources.now q d) }
    ensures { IfOk result (λ refs. refs ≡ counted sources.now (root_counts roots.now)) }
{
    let mut refs = List::new(alloc);
    for root in roots {
        refs.push(if *root { 1 } else { 0 })?;
    }
    count_all(&mut refs, sources)?;
    Ok(refs)
}

fn count_all(refs: &mut List<u32>, sources: &[List<u32>]) -> Result<(), NoMemory>
    requires within { (q : ℕ) (d : List ℕ) → q < length sources.now → All (λ w. w < length refs.old) (slice_index_or sources.now q d) }
    ensures refs { OnOk result (refs.new ≡ counted sources.now refs.old) }
{
    for row in sources {
        count_row(refs, row)?;
    }
    Ok(())
}

fn count_row(refs: &mut List<u32>, row: &[u32]) -> Result<(), NoMemory>
    requires within { All (λ w. w < length refs.old) row.now }
    ensures refs { OnOk result (refs.new ≡ raised row.now refs.old) }
    ensures size { length refs.new ≡ length refs.old }
{
    for maker in row {
        let Some(more) = refs[*maker as usize].checked_add(1) else {
            return Err(NoMemory);
        };
        refs.set(*maker as usize, more);
    }
    Ok(())
}

// The passes that have no reader.
fn idle(alloc: Global, refs: &[u32]) -> Result<List<u32>, NoMemory>
    requires { length refs.now < 2 ^ 32 }
    ensures { IfOk result (λ stack. stack ≡ idle_from 0 refs.now) }
{
    let mut stack = List::new(alloc);
    for (at, count) in refs.iter().enumerate() {
        if *count == 0 {
            stack.push(at as u32)?;
        }
    }
    Ok(stack)
}

/// For each pass a number that is 0 exactly where no root needs the pass. Entry q of sources has the passes that make
/// what pass q reads or changes.
pub(crate) fn needed(
    alloc: Global,
    sources: &[List<u32>],
    roots: &[bool],
) -> Result<List<u32>, NoMemory>
    requires size { length roots.now ≡ length sources.now }
    requires few { length sources.now < 2 ^ 32 }
    requires forward { IsForward sources.now }
    ensures size { IfOk result (λ refs. length refs ≡ length sources.now) }
    ensures needed { IfOk result (λ refs. (p : ℕ) → p < length sources.now → (0 < count_of refs p) ↔ IsNeeded sources.now roots.now p) }
{
    let mut refs = counted(alloc, sources, roots)?;
    let mut stack = idle(alloc, &refs)?;
    while let Some(pass) = stack.pop() {
        lose(&mut refs, &mut stack, &sources[pass as usize])?;
    }
    Ok(refs)
}

/// For each count whether it is not 0.
pub(crate) fn positive(alloc: Global, counts: &[u32]) -> Result<List<bool>, NoMemory>
    ensures { IfOk result (λ list. list ≡ map (λ count. nat_lt 0 count) counts.now) }
{
    let mut list = List::new(alloc);
    for count in counts {
        list.push(*count > 0)?;
    }
    Ok(list)
}
