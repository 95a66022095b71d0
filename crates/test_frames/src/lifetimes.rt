use crate::sketched::{good, groups};
use compile_heap::Pairs;
use compile_lifetimes::ordered;
use frame::ValidFrame;
use std::alloc::Global;
use std::test::Fail;
use test_sketch::SketchError;

// Frames, and which of their placed units are before which.
const ROWS: [(&str, &[(u32, u32)]); 3] = [
    // Two lives on one queue, and on two.
    (
        "x:c x:one |g w:+b fill:b:16 |g r:b w:+c copy:b:c:16 |g w:+one clear:one",
        &[(0, 2)],
    ),
    (
        "x:c x:one |t w:+b fill:b:16 |t r:b w:+c copy:b:c:16 |g w:+one clear:one",
        &[],
    ),
    // By needs, from one queue to the other and back.
    (
        "x:one |g w:+b fill:b:16 |t r:b w:+c copy:b:c:16 |g r:c w:+one in:c:one",
        &[(0, 2)],
    ),
];

fn pairs(alloc: Global, frame: &ValidFrame) -> Result<Pairs, SketchError> {
    Ok(ordered(alloc, &groups(alloc, frame)?)?)
}

// Whether these pairs, and no others, are there.
fn are(pairs: &Pairs, wanted: &[(u32, u32)]) -> bool {
    for a in 0..pairs.count() {
        for b in 0..pairs.count() {
            if pairs.has(a, b) != wanted.contains(&(a, b)) {
                return false;
            }
        }
    }
    true
}

#[test]
fn lives(rt: HostRuntime) -> Result<(), Fail> {
    let alloc = rt.alloc();
    for (line, wanted) in &ROWS {
        let pairs = pairs(alloc, &good(alloc, line)?)?;
        assert!(&rt; are(&pairs, wanted), "{line}");
    }
    Ok(())
}
