use crate::sketched::good;
use frame::ValidFrame;
use frame_meaning::{exports_of, meaning};
use std::alloc::Global;
use std::process::Abort;
use std::test::Fail;

// b is filled, and a part of it is copied over; c is b and 1 in each word, and the import is filled; c becomes the second
// layer of im, whose first texel is drawn over. c is made for that layer alone.
const FRAME: &str =
    "x:im/1 x:in x:b |g r:in w:+b fill:b:16 copy:in:b:4 |g r:b w:+c w:in map:b:c fill:in:4 |g r:c w:+im/1 in:c:im/1 draw:im/1:1";

// The bytes of b, c, the two layers of im, one and in.
const WANTED: [Option<&[u8]>; 6] = [
    Some(&[1, 1, 1, 1, 7, 0, 0, 0, 7, 0, 0, 0, 7, 0, 0, 0]),
    Some(&[2, 1, 1, 1, 8, 0, 0, 0, 8, 0, 0, 0, 8, 0, 0, 0]),
    None,
    Some(&[1, 0, 0, 0, 8, 0, 0, 0, 8, 0, 0, 0, 8, 0, 0, 0]),
    None,
    Some(&[7, 0, 0, 0]),
];

fn compare(rt: &impl Abort, alloc: Global, good: &ValidFrame) -> Result<(), Fail> {
    let pictures = meaning(alloc, good)?;
    assert!(rt; good.unit_count() == 6);
    for unit in 0..6 {
        assert!(rt; pictures.get(unit) == WANTED[unit as usize], "{unit}");
    }
    Ok(())
}

// The exported units hold what they hold among all pictures, and the others nothing.
const HELD: [&[u8]; 6] = [
    &[1, 1, 1, 1, 7, 0, 0, 0, 7, 0, 0, 0, 7, 0, 0, 0],
    &[],
    &[],
    &[1, 0, 0, 0, 8, 0, 0, 0, 8, 0, 0, 0, 8, 0, 0, 0],
    &[],
    &[7, 0, 0, 0],
];

fn compare_exports(rt: &impl Abort, alloc: Global, good: &ValidFrame) -> Result<(), Fail> {
    let exports = exports_of(alloc, good)?;
    assert!(rt; good.unit_count() == 6);
    for unit in 0..6 {
        assert!(rt; exports.get(unit) == HELD[unit as usize], "{unit}");
    }
    Ok(())
}

#[test]
fn pictures(rt: HostRuntime) -> Result<(), Fail> {
    let alloc = rt.alloc();
    let good = good(alloc, FRAME)?;
    compare(&rt, alloc, &good)?;
    compare_exports(&rt, alloc, &good)
}
