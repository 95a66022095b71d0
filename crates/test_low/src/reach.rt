ghost use Rattle.std.specs.Prelude.{◌≤◌};

use base::NoMemory;
use base_reach::*;
use std::alloc::Global;
use std::process::Abort;
use std::test::Fail;

// Whether the set has these pairs, and no others, of numbers below the count.
fn has_exactly(rows: &Rows, count: u32, pairs: &[(u32, u32)]) -> bool
    requires { count ≤ rows.now.count }
{
    for a in 0..count {
        for b in 0..count {
            if rows.has(a, b) != pairs.contains(&(a, b)) {
                return false;
            }
        }
    }
    true
}

// Paths that part, meet and go on.
fn forks(rt: &impl Abort, alloc: Global) -> Result<(), NoMemory> {
    let rows = Rows::closure(alloc, 6, &[(3, 4), (0, 1), (2, 3), (1, 3)])?;
    let pairs = [
        (0, 1),
        (0, 3),
        (0, 4),
        (1, 3),
        (1, 4),
        (2, 3),
        (2, 4),
        (3, 4),
    ];
    assert!(rt; has_exactly(&rows, 6, &pairs));
    Ok(())
}

// Numbers in several words of a row.
fn far_steps(rt: &impl Abort, alloc: Global) -> Result<(), NoMemory> {
    let mut rows = Rows::empty(alloc, 193)?;
    rows.set(1, 63);
    rows.set(63, 64);
    rows.set(64, 192);
    assert!(rt; has_exactly(&rows, 193, &[(1, 63), (63, 64), (64, 192)]));
    rows.close();
    let pairs = [(1, 63), (1, 64), (1, 192), (63, 64), (63, 192), (64, 192)];
    assert!(rt; has_exactly(&rows, 193, &pairs));
    Ok(())
}

#[test]
fn closures(rt: HostRuntime) -> Result<(), Fail> {
    let alloc = rt.alloc();
    forks(&rt, alloc)?;
    far_steps(&rt, alloc)?;
    let none = Rows::closure(alloc, 0, &[])?;
    assert!(&rt; has_exactly(&none, 0, &[]));
    Ok(())
}
