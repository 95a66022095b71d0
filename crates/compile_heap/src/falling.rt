//! In which order resources are placed.

ghost use Rattle.std.specs.Prelude.{IfOk};
ghost use Rattle.compile_heap.specs.Internal.Choosing.{IsKeyed, IsOrder};

use base::NoMemory;
use std::alloc::Global;
use std::cmp::Reverse;

// By these keys the larger resources come first, and of equal ones those with the lower numbers.
fn keys_of(alloc: Global, sizes: &[u32]) -> Result<Vec<(Reverse<u32>, usize)>, NoMemory>
    ensures { IfOk result (λ keys. IsKeyed (λ key. key.0.0) (λ key. key.1) sizes.now keys.items) }
{
    let mut keys = Vec::new(alloc);
    for (i, size) in sizes.iter().enumerate() {
        keys.push((Reverse(*size), i))?;
    }
    Ok(keys)
}

/// All resources in the order in which they are placed: the larger ones first, and of equal ones those with the lower
/// numbers.
pub(crate) fn order_of(alloc: Global, sizes: &[u32]) -> Result<Vec<usize>, NoMemory>
    ensures { IfOk result (λ order. IsOrder sizes.now order.items) }
{
    let mut keys = keys_of(alloc, sizes)?;
    keys.sort_unstable();
    let order = keys.iter().map(|(_, i)| *i).collect(alloc)?;
    Ok(order)
}
