use crate::sketched::good;
use base::NoMemory;
use frame::ValidFrame;
use frame_cull::{cull, versions_of};
use std::alloc::Global;
use std::test::Fail;

// Frames, and how many of their passes are kept.
const ROWS: [(&str, usize); 7] = [
    (
        "x:b |g w:+b fill:b:16 |g r:b w:+c map:b:c |g r:c w:+b map:c:b",
        3,
    ),
    ("|g w:+b fill:b:16 |g r:b w:+c map:b:c", 0),
    (
        "x:c |g w:+b fill:b:16 |g r:b w:+one clear:one |g r:b w:+c map:b:c",
        2,
    ),
    ("x:b |g w:+b fill:b:16 |g w:b fill:b:16 |g w:b fill:b:8", 3),
    ("x:b |g w:+b fill:b:16 |g w:+b fill:b:16", 1),
    ("|g w:+b fill:b:16 |g r:b effect |g w:+c fill:c:16", 2),
    ("x:in |g w:in fill:in:4 |g r:in w:+one clear:one", 1),
];

fn kept(alloc: Global, frame: &ValidFrame) -> Result<usize, NoMemory> {
    let versions = versions_of(alloc, frame)?;
    Ok(cull(alloc, frame, &versions)?.count())
}

#[test]
fn culled(rt: HostRuntime) -> Result<(), Fail> {
    let alloc = rt.alloc();
    for (line, count) in &ROWS {
        let found = kept(alloc, &good(alloc, line)?)?;
        assert!(&rt; found == *count, "{line}");
    }
    Ok(())
}
