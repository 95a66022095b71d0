use base::{Mix, Rect, Shape, Texel};
use kernel::*;
use std::process::Abort;

const LINE: Shape = Shape::Image {
    width: 3,
    height: 1,
    texel: Texel::R8,
};

const RECTS: [Rect; 4] = [
    Rect {
        x: 0,
        y: 0,
        width: 2,
        height: 1,
        mix: Mix::Set,
        value: 10,
    },
    Rect {
        x: 1,
        y: 0,
        width: 2,
        height: 1,
        mix: Mix::And,
        value: 6,
    },
    Rect {
        x: 0,
        y: 0,
        width: 3,
        height: 1,
        mix: Mix::Or,
        value: 257,
    },
    Rect {
        x: 2,
        y: 0,
        width: 1,
        height: 1,
        mix: Mix::Xor,
        value: 255,
    },
];

#[test]
fn rectangles_mix_in_order(rt: HostRuntime) {
    let mut out = [9u8; 3];
    draw(LINE, Some(268), &RECTS, &mut out);
    assert!(&rt; out == [11, 3, 250]);
    let mut over = [7u8, 8, 9];
    draw(LINE, None, &[RECTS[0]], &mut over);
    assert!(&rt; over == [10, 10, 9]);
}
