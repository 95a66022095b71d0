ghost use Rattle.std.specs.Prelude.{◌≤◌};

use base::{Fun, Op, Shape, Texel};
use kernel::*;
use std::process::Abort;

const BYTES: Shape = Shape::Image {
    width: 3,
    height: 3,
    texel: Texel::R8,
};

const WORDS: Shape = Shape::Image {
    width: 2,
    height: 2,
    texel: Texel::R32,
};

const WORD: Shape = Shape::Image {
    width: 1,
    height: 1,
    texel: Texel::R32,
};

#[test]
fn map_wraps(rt: HostRuntime) {
    let op = Op::Map {
        src: 0,
        dst: 1,
        fun: Fun::Add,
        value: 266,
    };
    let mut out = [0u8; 9];
    apply(
        &op,
        &[BYTES, BYTES],
        &[250, 10, 0, 1, 2, 3, 4, 5, 255],
        &[],
        &[],
        &mut out,
    );
    assert!(&rt; out == [4, 20, 10, 11, 12, 13, 14, 15, 9]);
}

#[test]
fn means_are_rounded_down(rt: HostRuntime) {
    let op = Op::Box3 { src: 0, dst: 1 };
    let mut out = [0u8; 9];
    apply(
        &op,
        &[BYTES, BYTES],
        &[1, 2, 3, 4, 5, 6, 7, 8, 9],
        &[],
        &[],
        &mut out,
    );
    assert!(&rt; out == [2, 3, 3, 4, 5, 5, 6, 7, 7]);
    let op = Op::Halve { src: 0, dst: 1 };
    let large = [
        255u8, 255, 255, 255, 255, 255, 255, 255, 255, 255, 255, 255, 254, 255, 255, 255,
    ];
    let mut mean = [0u8; 4];
    apply(&op, &[WORDS, WORD], &large, &[], &[], &mut mean);
    assert!(&rt; mean == [254, 255, 255, 255]);
}

#[test]
fn means_of_wide_rows(rt: HostRuntime) {
    let op = Op::Box3 { src: 0, dst: 1 };
    let mut row = [90u8; 4097];
    row[4095] = 0;
    row[4096] = 0;
    let kept = Shape::Image {
        width: 4096,
        height: 1,
        texel: Texel::R8,
    };
    let mut out = [0u8; 4096];
    apply(&op, &[kept, kept], &row[..4096], &[], &[], &mut out);
    assert!(&rt; (out[0], out[4093], out[4094], out[4095]) == (90, 90, 60, 30));
    let wide = Shape::Image {
        width: 4097,
        height: 1,
        texel: Texel::R8,
    };
    let mut out = [0u8; 4097];
    apply(&op, &[wide, wide], &row, &[], &[], &mut out);
    assert!(&rt; (out[0], out[4094], out[4095], out[4096]) == (90, 60, 30, 0));
}

// Words whose sums need more than 32 bits.
const LARGE: [u8; 20] = [
    255, 255, 255, 255, 254, 255, 255, 255, 5, 0, 0, 0, 64, 0, 0, 1, 239, 205, 171, 137,
];

// The means of the first few of them, as a row of an image.
const MEANS: [(u32, [u8; 20]); 4] = [
    (
        1,
        [
            255, 255, 255, 255, 0, 0, 0, 0, 0, 0, 0, 0, 0, 0, 0, 0, 0, 0, 0, 0,
        ],
    ),
    (
        2,
        [
            254, 255, 255, 255, 254, 255, 255, 255, 0, 0, 0, 0, 0, 0, 0, 0, 0, 0, 0, 0,
        ],
    ),
    (
        3,
        [
            254, 255, 255, 255, 171, 170, 170, 170, 88, 85, 85, 85, 0, 0, 0, 0, 0, 0, 0, 0,
        ],
    ),
    (
        5,
        [
            254, 255, 255, 255, 171, 170, 170, 170, 193, 170, 170, 85, 188, 68, 57, 46, 10, 52, 29,
            92,
        ],
    ),
];

fn means_of(width: u32) -> [u8; 20]
    requires { width ≤ 5 }
{
    let row = Shape::Image {
        width,
        height: 1,
        texel: Texel::R32,
    };
    let op = Op::Box3 { src: 0, dst: 1 };
    let n = 4 * width as usize;
    let mut out = [0u8; 20];
    apply(&op, &[row, row], &LARGE[..n], &[], &[], &mut out[..n]);
    out
}

#[test]
fn means_of_large_words(rt: HostRuntime) {
    for (width, means) in &MEANS {
        assert!(&rt; means_of(*width) == *means, "{width}");
    }
    let op = Op::Box3 { src: 0, dst: 1 };
    let square = Shape::Image {
        width: 16,
        height: 16,
        texel: Texel::R32,
    };
    let mut out = [0u8; 1024];
    apply(&op, &[square, square], &[255; 1024], &[], &[], &mut out);
    assert!(&rt; out == [255; 1024]);
}

#[test]
fn rectangle_goes_across(rt: HostRuntime) {
    let op = Op::CopyImage {
        src: 0,
        dst: 1,
        src_x: 1,
        src_y: 1,
        dst_x: 0,
        dst_y: 1,
        width: 2,
        height: 2,
    };
    let mut out = [0u8; 9];
    apply(
        &op,
        &[BYTES, BYTES],
        &[1, 2, 3, 4, 5, 6, 7, 8, 9],
        &[],
        &[],
        &mut out,
    );
    assert!(&rt; out == [0, 0, 0, 5, 6, 0, 8, 9, 0]);
}

#[test]
fn texels_are_counted(rt: HostRuntime) {
    let op = Op::Histogram { src: 0, dst: 1 };
    let table = Shape::Buffer { size: 1024 };
    let mut out = [9u8; 1024];
    apply(
        &op,
        &[BYTES, table],
        &[5, 5, 5, 5, 0, 5, 5, 255, 5],
        &[],
        &[],
        &mut out,
    );
    assert!(&rt; (out[0], out[4], out[20], out[1020], out[1023]) == (1, 0, 7, 1, 0));
}
