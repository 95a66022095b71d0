use base::{List, Op};
use program_eq::Same;
use std::test::Fail;

const FILL: Op<u32> = Op::FillBuffer {
    dst: 1,
    offset: 0,
    size: 8,
    word: 7,
};

const SHORTER: Op<u32> = Op::FillBuffer {
    dst: 1,
    offset: 0,
    size: 4,
    word: 7,
};

const CLEAR: Op<u32> = Op::ClearImage { dst: 1, value: 7 };

#[test]
fn operations(rt: HostRuntime) -> Result<(), Fail> {
    assert!(&rt; FILL.same(&FILL));
    assert!(&rt; !FILL.same(&SHORTER));
    assert!(&rt; !FILL.same(&CLEAR));
    Ok(())
}

#[test]
fn lists(rt: HostRuntime) -> Result<(), Fail> {
    let alloc = rt.alloc();
    let a = List::from_slice(alloc, &[1u32, 2])?;
    let b = List::from_slice(alloc, &[1u32, 2, 3])?;
    assert!(&rt; a.same(&a));
    assert!(&rt; !a.same(&b));
    Ok(())
}
