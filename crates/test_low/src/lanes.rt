ghost use Rattle.std.specs.Prelude.{◌≡◌, ◌≤◌, length, IfOk};

use base::{Fun, Op, Shape, Texel};
use bytes::BytesMut;
use kernel::apply;
use kernel_simd::{Target, apply_fast};
use std::alloc::{AllocError, Global};
use std::thread::Threads;

// Bytes that do not repeat in a block, and zeros among them.
const BYTES: [u8; 268] = [
    0, 7, 28, 63, 112, 175, 1, 92, 197, 65, 198, 94, 4, 179, 117, 69, 35, 15, 9, 17, 39, 75, 125,
    189, 16, 108, 214, 83, 217, 114, 25, 201, 140, 93, 60, 41, 36, 45, 68, 105, 156, 221, 49, 142,
    249, 119, 3, 152, 64, 241, 181, 135, 103, 85, 81, 91, 115, 153, 205, 20, 100, 194, 51, 173, 58,
    208, 121, 48, 240, 195, 164, 147, 144, 155, 180, 219, 21, 88, 169, 13, 122, 245, 131, 31, 196,
    124, 66, 22, 243, 227, 225, 237, 12, 52, 106, 174, 5, 101, 211, 84, 222, 123, 38, 218, 161,
    118, 89, 74, 73, 86, 113, 154, 209, 27, 110, 207, 67, 192, 80, 233, 149, 79, 23, 232, 204, 190,
    190, 204, 232, 23, 79, 149, 233, 80, 192, 67, 207, 110, 27, 209, 154, 113, 86, 73, 74, 89, 118,
    161, 218, 38, 123, 222, 84, 211, 101, 5, 174, 106, 52, 12, 237, 225, 227, 243, 22, 66, 124,
    196, 31, 131, 245, 122, 13, 169, 88, 21, 219, 180, 155, 144, 147, 164, 195, 240, 48, 121, 208,
    58, 173, 51, 194, 100, 20, 205, 153, 115, 91, 81, 85, 103, 135, 181, 241, 64, 152, 3, 119, 249,
    142, 49, 221, 156, 105, 68, 45, 36, 41, 60, 93, 140, 201, 25, 114, 217, 83, 214, 108, 16, 189,
    125, 75, 39, 17, 9, 15, 35, 69, 117, 179, 4, 94, 198, 65, 197, 92, 1, 175, 112, 63, 28, 7, 0,
    7, 28, 63, 112, 175, 1, 92, 197, 65, 198, 94, 4, 179, 117, 69, 35,
];

// New memory for so many bytes, or memory with other bytes.
fn target(alloc: Global, n: usize, is_new: bool) -> Result<Target, AllocError>
    ensures { IfOk result (λ target. length target ≡ n) }
{
    if is_new {
        return Ok(Target::zeros(Vec::with_capacity(alloc, n)?, n));
    }
    let used = vec![in alloc; 9; n]?;
    Ok(Target::holding(BytesMut::from_vec(used)))
}

// Whether both forms of an operation on bytes leave the same in a row of so many texels.
fn bytes_alike<R: Threads + Sync>(
    rt: &R,
    alloc: Global,
    width: u32,
    fun: Fun,
    is_new: bool,
) -> Result<bool, AllocError>
    requires { width ≤ 67 }
{
    let shape = Shape::Image {
        width,
        height: 1,
        texel: Texel::R8,
    };
    let op = Op::Map {
        src: 0,
        dst: 1,
        fun,
        value: 259,
    };
    let n = width as usize;
    let mut plain = [0u8; 67];
    apply(&op, &[shape, shape], &BYTES[..n], &[], &[], &mut plain[..n]);
    let fast = apply_fast(
        rt,
        usize::MAX,
        &op,
        &[shape, shape],
        &BYTES[..n],
        &[],
        &[],
        target(alloc, n, is_new)?,
    );
    Ok(fast.as_slice() == &plain[..n])
}

// The same of words, of two sources.
fn words_alike<R: Threads + Sync>(
    rt: &R,
    alloc: Global,
    width: u32,
    fun: Fun,
    is_new: bool,
) -> Result<bool, AllocError>
    requires { width ≤ 67 }
{
    let shape = Shape::Image {
        width,
        height: 1,
        texel: Texel::R32,
    };
    let op = Op::Combine {
        a: 0,
        b: 1,
        dst: 2,
        fun,
    };
    let n = 4 * width as usize;
    let (a, b) = (&BYTES[..n], &BYTES[268 - n..]);
    let mut plain = [0u8; 268];
    apply(&op, &[shape, shape, shape], a, b, &[], &mut plain[..n]);
    let fast = apply_fast(
        rt,
        usize::MAX,
        &op,
        &[shape, shape, shape],
        a,
        b,
        &[],
        target(alloc, n, is_new)?,
    );
    Ok(fast.as_slice() == &plain[..n])
}

// At each width, some of them with whole blocks and some with none, in memory of both kinds.
#[test]
fn lanes_are_the_plain_form(rt: HostRuntime) -> Result<(), AllocError> {
    let alloc = rt.alloc();
    for width in 1..68 {
        for is_new in [true, false] {
            let bytes = bytes_alike(&rt, alloc, width, Fun::Sub, is_new)?;
            assert!(&rt; bytes, "bytes, {width}, {is_new}");
            let words = words_alike(&rt, alloc, width, Fun::Shl, is_new)?;
            assert!(&rt; words, "words, {width}, {is_new}");
        }
    }
    Ok(())
}
