use crate::sketched::{good, groups};
use compile_groups::{Groups, Use};
use std::process::Abort;
use std::test::Fail;
use vk::Sharing;

// Frames, and for each of their groups the unit and the command of each use.
const ROWS: [(&str, &[&[(u32, u32)]]); 5] = [
    (
        "x:c x:one |g w:+b fill:b:16 |g r:b w:+c map:b:c |g r:b w:+one in:b:one",
        &[
            &[(0, 0)],
            &[(0, 1), (0, 2)],
            &[(1, 1)],
            &[(1, 3)],
            &[(4, 2)],
            &[(4, 4)],
        ],
    ),
    (
        "x:c x:one |g w:+b fill:b:16 |t r:b w:+c copy:b:c:16 |g r:b w:+one in:b:one",
        &[
            &[(0, 0)],
            &[(0, 1)],
            &[(0, 2)],
            &[(1, 1)],
            &[(1, 3)],
            &[(4, 2)],
            &[(4, 4)],
        ],
    ),
    (
        "x:b x:c |g w:+im/0 clear:im/0 |t r:im/0 w:+b out:im/0:b |g r:im/0 w:+c out:im/0:c",
        &[
            &[(0, 1)],
            &[(0, 3)],
            &[(1, 2)],
            &[(1, 4)],
            &[(2, 0)],
            &[(2, 1), (2, 2)],
        ],
    ),
    (
        "x:c |g w:+im/0 clear:im/0 |g r:im/0 w:+b w:+one out:im/0:b map:im/0:one |g r:b r:one w:+c out:one:c",
        &[
            &[(0, 1)],
            &[(1, 3)],
            &[(1, 4)],
            &[(2, 0)],
            &[(2, 1)],
            &[(2, 2)],
            &[(4, 2)],
            &[(4, 3)],
        ],
    ),
    ("x:in |g w:+b fill:b:16", &[&[(5, 0)]]),
];

fn is_used(members: &[Use], wanted: &[(u32, u32)]) -> bool {
    if members.len() != wanted.len() {
        return false;
    }
    for k in 0..members.len() {
        if members[k].unit != wanted[k].0 || members[k].command != wanted[k].1 {
            return false;
        }
    }
    true
}

// Whether these are the groups.
fn are(groups: &Groups, wanted: &[&[(u32, u32)]]) -> bool {
    if groups.group_count() as usize != wanted.len() {
        return false;
    }
    for g in 0..groups.group_count() {
        if !is_used(groups.members(g), wanted[g as usize]) {
            return false;
        }
    }
    true
}

#[test]
fn grouped(rt: HostRuntime) -> Result<(), Fail> {
    let alloc = rt.alloc();
    for (line, wanted) in &ROWS {
        let groups = groups(alloc, &good(alloc, line)?)?;
        assert!(&rt; are(&groups, wanted), "{line}");
    }
    Ok(())
}

// What the readers say of the first frame.
fn read(rt: &impl Abort, groups: &Groups) {
    assert!(rt; groups.commands().len() == 5 && groups.uses().len() == 7);
    assert!(rt; groups.group_count() == 6 && groups.group(1).len() == 2);
    assert!(rt; groups.shapes().len() == 8 && groups.unit_count() == 6);
    assert!(rt; groups.sharing(4) == Sharing::Concurrent);
    assert!(rt; groups.placed() == [0u32, 1, 4].as_slice());
    assert!(rt; groups.sizes() == [16u32, 16, 16].as_slice());
}

#[test]
fn readers(rt: HostRuntime) -> Result<(), Fail> {
    let alloc = rt.alloc();
    read(&rt, &groups(alloc, &good(alloc, ROWS[0].0)?)?);
    Ok(())
}
