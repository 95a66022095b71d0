use base::*;
use std::alloc::Global;
use std::process::Abort;
use std::test::Fail;

const SHAPES: [Shape; 2] = [
    Shape::Buffer { size: 64 },
    Shape::Image {
        width: 4,
        height: 4,
        texel: Texel::R32,
    },
];

// Whether the operation is over these shapes, fits them and touches them so.
fn touches(op: &Op<u32>, wants: &[Touch]) -> bool {
    if !op_within(op, 2) {
        return false;
    }
    if !op_fits(op, &SHAPES) {
        return false;
    }
    if op.touch_count() as usize != wants.len() {
        return false;
    }
    for k in 0..op.touch_count() {
        if op.touch(k, &SHAPES) != wants[k as usize] {
            return false;
        }
    }
    true
}

const UPLOADS: [Touch; 2] = [
    Touch {
        what: 0,
        role: Role::CopyRead,
        whole: false,
    },
    Touch {
        what: 1,
        role: Role::CopyWrite,
        whole: true,
    },
];

fn uploading(rt: &impl Abort) {
    let op = Op::BufferToImage {
        src: 0,
        dst: 1,
        offset: 0,
    };
    assert!(rt; touches(&op, &UPLOADS));
    assert!(rt; op.touches(0) && !op_in_place(&op) && op_runs(&op, Family::Transfer));
}

// A draw over what the image holds.
fn draw(alloc: Global) -> Result<Op<u32>, NoMemory> {
    let rect = Rect {
        x: 0,
        y: 0,
        width: 4,
        height: 4,
        mix: Mix::Xor,
        value: 255,
    };
    Ok(Op::Draw {
        dst: 1,
        clear: None,
        rects: List::from_slice(alloc, &[rect])?,
    })
}

const DRAWN: [Touch; 1] = [Touch {
    what: 1,
    role: Role::Attachment { load: true },
    whole: false,
}];

fn drawing(rt: &impl Abort, alloc: Global) -> Result<(), NoMemory> {
    let op = draw(alloc)?.copy(alloc)?;
    assert!(rt; touches(&op, &DRAWN) && op.rect_count() == 1);
    let named = op.mapped(alloc, |n: u32| Ok(n == 1))?;
    assert!(rt; named.rect_count() == 1);
    Ok(())
}

#[test]
fn operations(rt: HostRuntime) -> Result<(), Fail> {
    uploading(&rt);
    drawing(&rt, rt.alloc())?;
    Ok(())
}
