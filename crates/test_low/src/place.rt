ghost use Rattle.std.specs.Prelude.{◌≡◌, ◌<◌, ◌≤◌, length};
ghost use Rattle.std.specs.List.{All, sum};
ghost use Rattle.base.specs.Maxima.{max_units, max_size, max_resource_bytes};

use base::NoMemory;
use compile_heap::*;
use std::alloc::Global;
use std::test::Fail;

// Whether resources of these sizes, ordered in these pairs, are placed so.
fn lie_at(
    alloc: Global,
    sizes: &[u32],
    pairs: &[(u32, u32)],
    offsets: &[u32],
    heap: u32,
) -> Result<bool, NoMemory>
    requires few { length sizes.now ≤ max_units }
    requires sizes { All (λ size. size ≤ max_size) sizes.now }
    requires sum { sum sizes.now ≤ max_resource_bytes }
    requires pairs { All (λ p. (p.0 < length sizes.now) × (p.1 < length sizes.now)) pairs.now }
    requires offsets { length offsets.now ≡ length sizes.now }
{
    let mut ordered = Pairs::new(alloc, sizes.len() as u32)?;
    for pair in pairs {
        ordered.set(pair.0, pair.1);
    }
    let placement = place(alloc, sizes, &ordered)?;
    for i in 0..sizes.len() {
        if placement.offset(i as u32) != offsets[i] {
            return Ok(false);
        }
    }
    Ok(placement.heap() == heap)
}

#[test]
fn placements(rt: HostRuntime) -> Result<(), Fail> {
    let alloc = rt.alloc();
    // Two lives on one queue, and on two.
    assert!(rt;
        lie_at(
            alloc,
            &[512, 512, 4, 4],
            &[(0, 1), (0, 3)],
            &[0, 0, 512, 768],
            772
        )?
    );
    assert!(rt; lie_at(alloc, &[512, 512, 4, 4], &[], &[0, 512, 1024, 1280], 1284)?);
    // Two destinations, and two layers of an image.
    assert!(rt; lie_at(alloc, &[16, 4], &[], &[0, 256], 260)?);
    assert!(rt; lie_at(alloc, &[2, 2], &[], &[0, 256], 258)?);
    // The larger one first, and a pair the other way round.
    assert!(rt; lie_at(alloc, &[4, 512], &[], &[512, 0], 516)?);
    assert!(rt; lie_at(alloc, &[4, 512], &[(0, 1)], &[0, 0], 512)?);
    Ok(())
}

// As many as there may be, of which no two may lie in the same bytes.
#[test]
fn many(rt: HostRuntime) -> Result<(), Fail> {
    let alloc = rt.alloc();
    let ordered = Pairs::new(alloc, 256)?;
    let placement = place(alloc, &[257; 256], &ordered)?;
    assert!(rt; ordered.count() == 256 && !ordered.has(0, 255));
    assert!(rt; placement.offset(255) == 255 * 512);
    assert!(rt; placement.heap() == 255 * 512 + 257);
    Ok(())
}
