//! Where all resources lie.

ghost use Rattle.std.specs.Prelude.{◌≡◌, ◌<◌, ◌≤◌, ℕ, length, get_or, slice_get, IfOk, Some};
ghost use Rattle.std.specs.List.{All, sum};
ghost use Rattle.base.specs.Maxima.{max_units, max_size, max_resource_bytes};
ghost use Rattle.compile_heap.specs.Pairs.{has};
ghost use Rattle.compile_heap.specs.Placing.{IsLeast, IsLegal, IsOnly};

use crate::Pairs;
use crate::falling::order_of;
use crate::least::least_of;
use crate::rising::index_of;
use base::{List, NoMemory};
use std::alloc::Global;
use std::marker::Model;

/// Where each resource begins, and how many bytes the heap has.
#[derive(Debug, Drop)]
pub struct Placement {
    offsets: List<u32>,
    heap: u32,
}

impl Model for Placement {
    ghost use Rattle.compile_heap.specs.Placing.{Places};

    ghost Value = { Places };

    ghost view = { λ p. record { offsets = p.offsets; heap = p.heap } };
}

fn zeros(alloc: Global, count: usize) -> Result<Vec<u32>, NoMemory>
    ensures count { IfOk result (λ offsets. length offsets.items ≡ count) }
    ensures zeros { IfOk result (λ offsets. (k : ℕ) → get_or offsets.items k 0 ≡ 0) }
{
    Ok(vec![in alloc; 0; count]?)
}

/// The places of resources of these sizes, by their numbers: the larger ones are placed first, and of equal ones those
/// with the lower numbers. Each gets the least multiple of 256 bytes at which it overlaps no earlier one that it is not
/// ordered with, in one direction or the other.
pub fn place(alloc: Global, sizes: &[u32], ordered: &Pairs) -> Result<Placement, NoMemory>
    requires few { length sizes.now ≤ max_units }
    requires sizes { All (λ size. size ≤ max_size) sizes.now }
    requires sum { sum sizes.now ≤ max_resource_bytes }
    requires count { ordered.now.count ≡ length sizes.now }
    ensures least { IfOk result (λ placement. IsLeast sizes.now (has ordered.now) placement) }
    ensures only { IfOk result (λ placement. IsOnly sizes.now (has ordered.now) placement) }
    ensures legal { IfOk result (λ placement. IsLegal sizes.now (has ordered.now) placement) }
{
    let order = order_of(alloc, sizes)?;
    let mut offsets = zeros(alloc, sizes.len())?;
    let mut placed = Vec::new(alloc);
    let mut heap = 0u32;
    for i in &order {
        let i = *i;
        let offset = least_of(sizes, ordered, &offsets, &placed, i, heap);
        let index = index_of(&offsets, &placed, offset);
        placed.insert(index, i)?;
        offsets[i] = offset;
        heap = heap.max(offset + sizes[i]);
    }
    Ok(Placement {
        offsets: List::from_vec(offsets),
        heap,
    })
}

impl Placement {
    /// Where a resource begins, in bytes.
    pub fn offset(&self, i: u32) -> u32
        requires { i < length self.now.offsets }
        ensures { slice_get self.now.offsets i ≡ Some result }
    {
        self.offsets[i as usize]
    }

    /// How many bytes all resources take together.
    pub fn heap(&self) -> u32
        ensures { result ≡ self.now.heap }
    {
        self.heap
    }
}
