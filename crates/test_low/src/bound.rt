ghost use Rattle.std.specs.Prelude.{◌<◌, ◌≤◌, ◌^◌, length};
ghost use Rattle.std.specs.List.{All};

use base::NoMemory;
use compile_bound::*;
use compile_heap::Pairs;
use std::alloc::Global;
use std::test::Fail;

// Whether resources of these sizes, ordered in these pairs, have this bound by these resources.
fn is_bound_by(
    alloc: Global,
    sizes: &[u32],
    pairs: &[(u32, u32)],
    least: u64,
    chosen: &[u32],
) -> Result<bool, NoMemory>
    requires few { length sizes.now ≤ 2 ^ 16 }
    requires pairs { All (λ p. (p.0 < length sizes.now) × (p.1 < length sizes.now)) pairs.now }
{
    let mut ordered = Pairs::new(alloc, sizes.len() as u32)?;
    for pair in pairs {
        ordered.set(pair.0, pair.1);
    }
    let bound = bound_of(alloc, sizes, &ordered)?;
    Ok(bound.least == least && bound.chosen.as_slice() == chosen)
}

#[test]
fn bounds(rt: HostRuntime) -> Result<(), Fail> {
    let alloc = rt.alloc();
    // Two lives on one queue, and on two.
    assert!(rt; is_bound_by(alloc, &[512, 512, 4, 4], &[(0, 1), (0, 3)], 772, &[1, 2, 3])?);
    assert!(rt; is_bound_by(alloc, &[512, 512, 4, 4], &[], 1284, &[0, 1, 2, 3])?);
    // No resource; one; and of two equal choices the first.
    assert!(rt; is_bound_by(alloc, &[], &[], 0, &[])?);
    assert!(rt; is_bound_by(alloc, &[16777216], &[], 16777216, &[0])?);
    assert!(rt; is_bound_by(alloc, &[100, 100], &[(1, 0)], 100, &[0])?);
    Ok(())
}
