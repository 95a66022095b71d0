//! Writing operations.

ghost use Rattle.std.specs.Prelude.{◌≡◌, IfOk};
ghost use Rattle.file_ops.specs.OpWriting.{op_data, op_members, fill_buffer_members, clear_image_members, copy_buffer_members, copy_image_members, offset_members, ramp_members, map_members, combine_members, select_members, whole_members, draw_members};
ghost use Rattle.serde_json.specs.View.{view, members_view};

use crate::{FunForm, RectForm};
use base::{Fun, List, Op, Rect};
use file_json::{ListForm, Members, NumberForm, Writer, with_form, with_text};
use serde_json::{Map, Value};
use std::alloc::{AllocError, Global};

/// An operation as its members, with its word under `op`.
pub fn op_value<F: Writer>(alloc: Global, op: &Op<F::In>) -> Result<Value, AllocError>
    ensures { IfOk result (λ json. view json ≡ op_data F.writes op.now) }
{
    Ok(Value::Object(op_members::<F>(alloc, op)?))
}

fn op_members<F: Writer>(alloc: Global, op: &Op<F::In>) -> Result<Members, AllocError>
    ensures { IfOk result (λ members. members_view members.entries ≡ op_members F.writes op.now) }
{
    match op {
        Op::FillBuffer {
            dst,
            offset,
            size,
            word,
        } => fill_buffer::<F>(alloc, dst, offset, size, word),
        Op::ClearImage { dst, value } => clear_image::<F>(alloc, dst, value),
        Op::CopyBuffer {
            src,
            dst,
            src_offset,
            dst_offset,
            size,
        } => copy_buffer::<F>(alloc, src, dst, src_offset, dst_offset, size),
        Op::CopyImage {
            src,
            dst,
            src_x,
            src_y,
            dst_x,
            dst_y,
            width,
            height,
        } => copy_image::<F>(alloc, src, dst, src_x, src_y, dst_x, dst_y, width, height),
        Op::BufferToImage { src, dst, offset } => {
            with_offset::<F>(alloc, "buffer_to_image", src, dst, offset)
        }
        Op::ImageToBuffer { src, dst, offset } => {
            with_offset::<F>(alloc, "image_to_buffer", src, dst, offset)
        }
        Op::Ramp { dst, base, dx, dy } => ramp::<F>(alloc, dst, base, dx, dy),
        Op::Map {
            src,
            dst,
            fun,
            value,
        } => map::<F>(alloc, src, dst, fun, value),
        Op::Combine { a, b, dst, fun } => combine::<F>(alloc, a, b, dst, fun),
        Op::Select { mask, a, b, dst } => select::<F>(alloc, mask, a, b, dst),
        Op::Convert { src, dst } => whole::<F>(alloc, "convert", src, dst),
        Op::Box3 { src, dst } => whole::<F>(alloc, "box3", src, dst),
        Op::Halve { src, dst } => whole::<F>(alloc, "halve", src, dst),
        Op::Histogram { src, dst } => whole::<F>(alloc, "histogram", src, dst),
        Op::Draw { dst, clear, rects } => draw::<F>(alloc, dst, clear, rects),
    }
}

fn fill_buffer<F: Writer>(
    alloc: Global,
    dst: &F::In,
    offset: &u32,
    size: &u32,
    word: &u32,
) -> Result<Members, AllocError>
    ensures { IfOk result (λ members. members_view members.entries ≡ fill_buffer_members F.writes dst.now offset.now size.now word.now) }
{
    let members = with_form::<F>(alloc, Map::new(alloc), "dst", dst)?;
    let members = with_form::<NumberForm>(alloc, members, "offset", offset)?;
    let members = with_text(alloc, members, "op", "fill_buffer")?;
    let members = with_form::<NumberForm>(alloc, members, "size", size)?;
    with_form::<NumberForm>(alloc, members, "word", word)
}

fn clear_image<F: Writer>(alloc: Global, dst: &F::In, value: &u32) -> Result<Members, AllocError>
    ensures { IfOk result (λ members. members_view members.entries ≡ clear_image_members F.writes dst.now value.now) }
{
    let members = with_form::<F>(alloc, Map::new(alloc), "dst", dst)?;
    let members = with_text(alloc, members, "op", "clear_image")?;
    with_form::<NumberForm>(alloc, members, "value", value)
}

fn copy_buffer<F: Writer>(
    alloc: Global,
    src: &F::In,
    dst: &F::In,
    src_offset: &u32,
    dst_offset: &u32,
    size: &u32,
) -> Result<Members, AllocError>
    ensures { IfOk result (λ members. members_view members.entries ≡ copy_buffer_members F.writes src.now dst.now src_offset.now dst_offset.now size.now) }
{
    let members = with_form::<F>(alloc, Map::new(alloc), "dst", dst)?;
    let members = with_form::<NumberForm>(alloc, members, "dst_offset", dst_offset)?;
    let members = with_text(alloc, members, "op", "copy_buffer")?;
    let members = with_form::<NumberForm>(alloc, members, "size", size)?;
    let members = with_form::<F>(alloc, members, "src", src)?;
    with_form::<NumberForm>(alloc, members, "src_offset", src_offset)
}

fn copy_image<F: Writer>(
    alloc: Global,
    src: &F::In,
    dst: &F::In,
    src_x: &u32,
    src_y: &u32,
    dst_x: &u32,
    dst_y: &u32,
    width: &u32,
    height: &u32,
) -> Result<Members, AllocError>
    ensures { IfOk result (λ members. members_view members.entries ≡ copy_image_members F.writes src.now dst.now src_x.now src_y.now dst_x.now dst_y.now width.now height.now) }
{
    let members = with_form::<F>(alloc, Map::new(alloc), "dst", dst)?;
    let members = with_form::<NumberForm>(alloc, members, "dst_x", dst_x)?;
    let members = with_form::<NumberForm>(alloc, members, "dst_y", dst_y)?;
    let members = with_form::<NumberForm>(alloc, members, "height", height)?;
    let members = with_text(alloc, members, "op", "copy_image")?;
    let members = with_form::<F>(alloc, members, "src", src)?;
    let members = with_form::<NumberForm>(alloc, members, "src_x", src_x)?;
    let members = with_form::<NumberForm>(alloc, members, "src_y", src_y)?;
    with_form::<NumberForm>(alloc, members, "width", width)
}

// A copy between a buffer from an offset on and a whole image.
fn with_offset<F: Writer>(
    alloc: Global,
    word: &str,
    src: &F::In,
    dst: &F::In,
    offset: &u32,
) -> Result<Members, AllocError>
    ensures { IfOk result (λ members. members_view members.entries ≡ offset_members F.writes word.now src.now dst.now offset.now) }
{
    let members = with_form::<F>(alloc, Map::new(alloc), "dst", dst)?;
    let members = with_form::<NumberForm>(alloc, members, "offset", offset)?;
    let members = with_text(alloc, members, "op", word)?;
    with_form::<F>(alloc, members, "src", src)
}

fn ramp<F: Writer>(
    alloc: Global,
    dst: &F::In,
    base: &u32,
    dx: &u32,
    dy: &u32,
) -> Result<Members, AllocError>
    ensures { IfOk result (λ members. members_view members.entries ≡ ramp_members F.writes dst.now base.now dx.now dy.now) }
{
    let members = with_form::<NumberForm>(alloc, Map::new(alloc), "base", base)?;
    let members = with_form::<F>(alloc, members, "dst", dst)?;
    let members = with_form::<NumberForm>(alloc, members, "dx", dx)?;
    let members = with_form::<NumberForm>(alloc, members, "dy", dy)?;
    with_text(alloc, members, "op", "ramp")
}

fn map<F: Writer>(
    alloc: Global,
    src: &F::In,
    dst: &F::In,
    fun: &Fun,
    value: &u32,
) -> Result<Members, AllocError>
    ensures { IfOk result (λ members. members_view members.entries ≡ map_members F.writes src.now dst.now fun.now value.now) }
{
    let members = with_form::<F>(alloc, Map::new(alloc), "dst", dst)?;
    let members = with_form::<FunForm>(alloc, members, "fun", fun)?;
    let members = with_text(alloc, members, "op", "map")?;
    let members = with_form::<F>(alloc, members, "src", src)?;
    with_form::<NumberForm>(alloc, members, "value", value)
}

fn combine<F: Writer>(
    alloc: Global,
    a: &F::In,
    b: &F::In,
    dst: &F::In,
    fun: &Fun,
) -> Result<Members, AllocError>
    ensures { IfOk result (λ members. members_view members.entries ≡ combine_members F.writes a.now b.now dst.now fun.now) }
{
    let members = with_form::<F>(alloc, Map::new(alloc), "a", a)?;
    let members = with_form::<F>(alloc, members, "b", b)?;
    let members = with_form::<F>(alloc, members, "dst", dst)?;
    let members = with_form::<FunForm>(alloc, members, "fun", fun)?;
    with_text(alloc, members, "op", "combine")
}

fn select<F: Writer>(
    alloc: Global,
    mask: &F::In,
    a: &F::In,
    b: &F::In,
    dst: &F::In,
) -> Result<Members, AllocError>
    ensures { IfOk result (λ members. members_view members.entries ≡ select_members F.writes mask.now a.now b.now dst.now) }
{
    let members = with_form::<F>(alloc, Map::new(alloc), "a", a)?;
    let members = with_form::<F>(alloc, members, "b", b)?;
    let members = with_form::<F>(alloc, members, "dst", dst)?;
    let members = with_form::<F>(alloc, members, "mask", mask)?;
    with_text(alloc, members, "op", "select")
}

// A kernel from the whole of one operand to the whole of another.
fn whole<F: Writer>(
    alloc: Global,
    word: &str,
    src: &F::In,
    dst: &F::In,
) -> Result<Members, AllocError>
    ensures { IfOk result (λ members. members_view members.entries ≡ whole_members F.writes word.now src.now dst.now) }
{
    let members = with_form::<F>(alloc, Map::new(alloc), "dst", dst)?;
    let members = with_text(alloc, members, "op", word)?;
    with_form::<F>(alloc, members, "src", src)
}

fn draw<F: Writer>(
    alloc: Global,
    dst: &F::In,
    clear: &Option<u32>,
    rects: &List<Rect>,
) -> Result<Members, AllocError>
    ensures { IfOk result (λ members. members_view members.entries ≡ draw_members F.writes dst.now clear.now rects.now) }
{
    let members = with_form::<F>(alloc, Map::new(alloc), "dst", dst)?;
    let members = with_text(alloc, members, "op", "draw")?;
    let members = with_form::<ListForm<RectForm>>(alloc, members, "rects", rects)?;
    match clear {
        None => Ok(members),
        Some(clear) => with_form::<NumberForm>(alloc, members, "clear", clear),
    }
}
