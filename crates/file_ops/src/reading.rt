//! Reading the members of operations.

ghost use Rattle.std.specs.Prelude.{IfOk};
ghost use Rattle.file_json.specs.Locations.{legs};
ghost use Rattle.file_json.specs.Reading.{Gives};
ghost use Rattle.file_ops.specs.OpFits.{FitsOp};
ghost use Rattle.file_ops.specs.OpReading.{parts_at, variant_at, fill_buffer_at, clear_image_at, copy_buffer_at, copy_image_at, buffer_to_image_at, image_to_buffer_at, ramp_at, map_at, combine_at, select_at, convert_at, box3_at, halve_at, histogram_at, draw_at};
ghost use Rattle.serde_json.specs.View.{view};

use crate::{FunForm, Kind, KindForm, RectForm};
use base::Op;
use file_json::{ListForm, Location, NumberForm, ReadError, Reader, optional, required};
use serde_json::Value;
use std::alloc::Global;

/// An operation whose object may have further members: its word under `op`, and then its other members in order.
/// That the value is an object, and that it has no unknown member, is for the caller to test, by `members`.
#[tactic(auto, unfolding(crate::specs::OpReading::parts_at))]
pub fn parts<F: Reader>(
    alloc: Global,
    at: &Location<'_>,
    json: &Value,
) -> Result<Op<F::Out>, ReadError>
    ensures gives { Gives result (parts_at F.reads (legs at.now) (view json.now)) }
    ensures fits { IfOk result (FitsOp F.Fits) }
{
    let kind = required::<KindForm>(alloc, at, "op", json)?;
    variant::<F>(alloc, at, kind, json)
}

#[tactic(auto, unfolding(crate::specs::OpReading::variant_at))]
fn variant<F: Reader>(
    alloc: Global,
    at: &Location<'_>,
    kind: Kind,
    json: &Value,
) -> Result<Op<F::Out>, ReadError>
    ensures gives { Gives result (variant_at F.reads kind (legs at.now) (view json.now)) }
    ensures fits { IfOk result (FitsOp F.Fits) }
{
    match kind {
        Kind::FillBuffer => fill_buffer::<F>(alloc, at, json),
        Kind::ClearImage => clear_image::<F>(alloc, at, json),
        Kind::CopyBuffer => copy_buffer::<F>(alloc, at, json),
        Kind::CopyImage => copy_image::<F>(alloc, at, json),
        Kind::BufferToImage => buffer_to_image::<F>(alloc, at, json),
        Kind::ImageToBuffer => image_to_buffer::<F>(alloc, at, json),
        Kind::Ramp => ramp::<F>(alloc, at, json),
        Kind::Map => map::<F>(alloc, at, json),
        Kind::Combine => combine::<F>(alloc, at, json),
        Kind::Select => select::<F>(alloc, at, json),
        Kind::Convert => convert::<F>(alloc, at, json),
        Kind::Box3 => box3::<F>(alloc, at, json),
        Kind::Halve => halve::<F>(alloc, at, json),
        Kind::Histogram => histogram::<F>(alloc, at, json),
        Kind::Draw => draw::<F>(alloc, at, json),
    }
}

#[tactic(auto, unfolding(crate::specs::OpReading::fill_buffer_at))]
fn fill_buffer<F: Reader>(
    alloc: Global,
    at: &Location<'_>,
    json: &Value,
) -> Result<Op<F::Out>, ReadError>
    ensures gives { Gives result (fill_buffer_at F.reads (legs at.now) (view json.now)) }
    ensures fits { IfOk result (FitsOp F.Fits) }
{
    let dst = required::<F>(alloc, at, "dst", json)?;
    let offset = required::<NumberForm>(alloc, at, "offset", json)?;
    let size = required::<NumberForm>(alloc, at, "size", json)?;
    let word = required::<NumberForm>(alloc, at, "word", json)?;
    Ok(Op::FillBuffer {
        dst,
        offset,
        size,
        word,
    })
}

#[tactic(auto, unfolding(crate::specs::OpReading::clear_image_at))]
fn clear_image<F: Reader>(
    alloc: Global,
    at: &Location<'_>,
    json: &Value,
) -> Result<Op<F::Out>, ReadError>
    ensures gives { Gives result (clear_image_at F.reads (legs at.now) (view json.now)) }
    ensures fits { IfOk result (FitsOp F.Fits) }
{
    let dst = required::<F>(alloc, at, "dst", json)?;
    let value = required::<NumberForm>(alloc, at, "value", json)?;
    Ok(Op::ClearImage { dst, value })
}

#[tactic(auto, unfolding(crate::specs::OpReading::copy_buffer_at))]
fn copy_buffer<F: Reader>(
    alloc: Global,
    at: &Location<'_>,
    json: &Value,
) -> Result<Op<F::Out>, ReadError>
    ensures gives { Gives result (copy_buffer_at F.reads (legs at.now) (view json.now)) }
    ensures fits { IfOk result (FitsOp F.Fits) }
{
    let src = required::<F>(alloc, at, "src", json)?;
    let dst = required::<F>(alloc, at, "dst", json)?;
    let src_offset = required::<NumberForm>(alloc, at, "src_offset", json)?;
    let dst_offset = required::<NumberForm>(alloc, at, "dst_offset", json)?;
    let size = required::<NumberForm>(alloc, at, "size", json)?;
    Ok(Op::CopyBuffer {
        src,
        dst,
        src_offset,
        dst_offset,
        size,
    })
}

#[tactic(auto, unfolding(crate::specs::OpReading::copy_image_at))]
fn copy_image<F: Reader>(
    alloc: Global,
    at: &Location<'_>,
    json: &Value,
) -> Result<Op<F::Out>, ReadError>
    ensures gives { Gives result (copy_image_at F.reads (legs at.now) (view json.now)) }
    ensures fits { IfOk result (FitsOp F.Fits) }
{
    let src = required::<F>(alloc, at, "src", json)?;
    let dst = required::<F>(alloc, at, "dst", json)?;
    let src_x = required::<NumberForm>(alloc, at, "src_x", json)?;
    let src_y = required::<NumberForm>(alloc, at, "src_y", json)?;
    let dst_x = required::<NumberForm>(alloc, at, "dst_x", json)?;
    let dst_y = required::<NumberForm>(alloc, at, "dst_y", json)?;
    let width = required::<NumberForm>(alloc, at, "width", json)?;
    let height = required::<NumberForm>(alloc, at, "height", json)?;
    Ok(Op::CopyImage {
        src,
        dst,
        src_x,
        src_y,
        dst_x,
        dst_y,
        width,
        height,
    })
}

#[tactic(auto, unfolding(crate::specs::OpReading::buffer_to_image_at))]
fn buffer_to_image<F: Reader>(
    alloc: Global,
    at: &Location<'_>,
    json: &Value,
) -> Result<Op<F::Out>, ReadError>
    ensures gives { Gives result (buffer_to_image_at F.reads (legs at.now) (view json.now)) }
    ensures fits { IfOk result (FitsOp F.Fits) }
{
    let src = required::<F>(alloc, at, "src", json)?;
    let dst = required::<F>(alloc, at, "dst", json)?;
    let offset = required::<NumberForm>(alloc, at, "offset", json)?;
    Ok(Op::BufferToImage { src, dst, offset })
}

#[tactic(auto, unfolding(crate::specs::OpReading::image_to_buffer_at))]
fn image_to_buffer<F: Reader>(
    alloc: Global,
    at: &Location<'_>,
    json: &Value,
) -> Result<Op<F::Out>, ReadError>
    ensures gives { Gives result (image_to_buffer_at F.reads (legs at.now) (view json.now)) }
    ensures fits { IfOk result (FitsOp F.Fits) }
{
    let src = required::<F>(alloc, at, "src", json)?;
    let dst = required::<F>(alloc, at, "dst", json)?;
    let offset = required::<NumberForm>(alloc, at, "offset", json)?;
    Ok(Op::ImageToBuffer { src, dst, offset })
}

#[tactic(auto, unfolding(crate::specs::OpReading::ramp_at))]
fn ramp<F: Reader>(alloc: Global, at: &Location<'_>, json: &Value) -> Result<Op<F::Out>, ReadError>
    ensures gives { Gives result (ramp_at F.reads (legs at.now) (view json.now)) }
    ensures fits { IfOk result (FitsOp F.Fits) }
{
    let dst = required::<F>(alloc, at, "dst", json)?;
    let base = required::<NumberForm>(alloc, at, "base", json)?;
    let dx = required::<NumberForm>(alloc, at, "dx", json)?;
    let dy = required::<NumberForm>(alloc, at, "dy", json)?;
    Ok(Op::Ramp { dst, base, dx, dy })
}

#[tactic(auto, unfolding(crate::specs::OpReading::map_at))]
fn map<F: Reader>(alloc: Global, at: &Location<'_>, json: &Value) -> Result<Op<F::Out>, ReadError>
    ensures gives { Gives result (map_at F.reads (legs at.now) (view json.now)) }
    ensures fits { IfOk result (FitsOp F.Fits) }
{
    let src = required::<F>(alloc, at, "src", json)?;
    let dst = required::<F>(alloc, at, "dst", json)?;
    let fun = required::<FunForm>(alloc, at, "fun", json)?;
    let value = required::<NumberForm>(alloc, at, "value", json)?;
    Ok(Op::Map {
        src,
        dst,
        fun,
        value,
    })
}

#[tactic(auto, unfolding(crate::specs::OpReading::combine_at))]
fn combine<F: Reader>(
    alloc: Global,
    at: &Location<'_>,
    json: &Value,
) -> Result<Op<F::Out>, ReadError>
    ensures gives { Gives result (combine_at F.reads (legs at.now) (view json.now)) }
    ensures fits { IfOk result (FitsOp F.Fits) }
{
    let a = required::<F>(alloc, at, "a", json)?;
    let b = required::<F>(alloc, at, "b", json)?;
    let dst = required::<F>(alloc, at, "dst", json)?;
    let fun = required::<FunForm>(alloc, at, "fun", json)?;
    Ok(Op::Combine { a, b, dst, fun })
}

#[tactic(auto, unfolding(crate::specs::OpReading::select_at))]
fn select<F: Reader>(
    alloc: Global,
    at: &Location<'_>,
    json: &Value,
) -> Result<Op<F::Out>, ReadError>
    ensures gives { Gives result (select_at F.reads (legs at.now) (view json.now)) }
    ensures fits { IfOk result (FitsOp F.Fits) }
{
    let mask = required::<F>(alloc, at, "mask", json)?;
    let a = required::<F>(alloc, at, "a", json)?;
    let b = required::<F>(alloc, at, "b", json)?;
    let dst = required::<F>(alloc, at, "dst", json)?;
    Ok(Op::Select { mask, a, b, dst })
}

#[tactic(auto, unfolding(crate::specs::OpReading::convert_at))]
fn convert<F: Reader>(
    alloc: Global,
    at: &Location<'_>,
    json: &Value,
) -> Result<Op<F::Out>, ReadError>
    ensures gives { Gives result (convert_at F.reads (legs at.now) (view json.now)) }
    ensures fits { IfOk result (FitsOp F.Fits) }
{
    let src = required::<F>(alloc, at, "src", json)?;
    let dst = required::<F>(alloc, at, "dst", json)?;
    Ok(Op::Convert { src, dst })
}

#[tactic(auto, unfolding(crate::specs::OpReading::box3_at))]
fn box3<F: Reader>(alloc: Global, at: &Location<'_>, json: &Value) -> Result<Op<F::Out>, ReadError>
    ensures gives { Gives result (box3_at F.reads (legs at.now) (view json.now)) }
    ensures fits { IfOk result (FitsOp F.Fits) }
{
    let src = required::<F>(alloc, at, "src", json)?;
    let dst = required::<F>(alloc, at, "dst", json)?;
    Ok(Op::Box3 { src, dst })
}

#[tactic(auto, unfolding(crate::specs::OpReading::halve_at))]
fn halve<F: Reader>(alloc: Global, at: &Location<'_>, json: &Value) -> Result<Op<F::Out>, ReadError>
    ensures gives { Gives result (halve_at F.reads (legs at.now) (view json.now)) }
    ensures fits { IfOk result (FitsOp F.Fits) }
{
    let src = required::<F>(alloc, at, "src", json)?;
    let dst = required::<F>(alloc, at, "dst", json)?;
    Ok(Op::Halve { src, dst })
}

#[tactic(auto, unfolding(crate::specs::OpReading::histogram_at))]
fn histogram<F: Reader>(
    alloc: Global,
    at: &Location<'_>,
    json: &Value,
) -> Result<Op<F::Out>, ReadError>
    ensures gives { Gives result (histogram_at F.reads (legs at.now) (view json.now)) }
    ensures fits { IfOk result (FitsOp F.Fits) }
{
    let src = required::<F>(alloc, at, "src", json)?;
    let dst = required::<F>(alloc, at, "dst", json)?;
    Ok(Op::Histogram { src, dst })
}

#[tactic(auto, unfolding(crate::specs::OpReading::draw_at))]
fn draw<F: Reader>(alloc: Global, at: &Location<'_>, json: &Value) -> Result<Op<F::Out>, ReadError>
    ensures gives { Gives result (draw_at F.reads (legs at.now) (view json.now)) }
    ensures fits { IfOk result (FitsOp F.Fits) }
{
    let dst = required::<F>(alloc, at, "dst", json)?;
    let clear = optional::<NumberForm>(alloc, at, "clear", json)?;
    let rects = required::<ListForm<RectForm>>(alloc, at, "rects", json)?;
    Ok(Op::Draw { dst, clear, rects })
}
