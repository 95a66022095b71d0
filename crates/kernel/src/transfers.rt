//! Fills and copies, by the shapes of their operands.

ghost use Rattle.std.specs.Prelude.{◌≡◌, true, [], length};
ghost use Rattle.base.specs.Applied.{effect};
ghost use Rattle.base.specs.Fits.{fits};
ghost use Rattle.base.specs.Shapes.{bytes_of};

use crate::copies::{copy_area, copy_range};
use crate::fill::fill_words;
use crate::repainting::Area;
use crate::shapes::canvas;
use base::{Op, Shape};

#[tactic(auto, using(crate::proofs::Fitting::fill_fits))]
pub(crate) fn fill_buffer(to: Shape, offset: u32, size: u32, word: u32, out: &mut [u8])
    requires fits { fits (Op.FillBuffer to offset size word) ≡ true }
    requires out { length out.old ≡ bytes_of to }
    ensures { out.new ≡ effect (Op.FillBuffer to offset size word) [] [] [] out.old }
{
    fill_words(offset, size, word, out);
}

/// Offsets of the source and the destination, and the number of bytes.
#[derive(Clone, Copy, Debug, PartialEq, Eq)]
pub(crate) struct Range {
    pub from: u32,
    pub to: u32,
    pub size: u32,
}

#[tactic(auto, using(crate::proofs::Fitting::copy_fits))]
pub(crate) fn copy_buffer(from: Shape, to: Shape, range: Range, src: &[u8], out: &mut [u8])
    requires fits { fits (Op.CopyBuffer from to range.from range.to range.size) ≡ true }
    requires src { length src.now ≡ bytes_of from }
    requires out { length out.old ≡ bytes_of to }
    ensures { out.new ≡ effect (Op.CopyBuffer from to range.from range.to range.size) src.now [] [] out.old }
{
    copy_range(
        src,
        range.from as usize,
        range.size as usize,
        range.to as usize,
        out,
    );
}

#[tactic(auto, using(crate::proofs::Fitting::copy_image_fits))]
pub(crate) fn copy_image(
    from: Shape,
    to: Shape,
    src_x: u32,
    src_y: u32,
    area: Area,
    src: &[u8],
    out: &mut [u8],
)
    requires fits { fits (Op.CopyImage from to src_x src_y area.left area.top area.width area.height) ≡ true }
    requires src { length src.now ≡ bytes_of from }
    requires out { length out.old ≡ bytes_of to }
    ensures { out.new ≡ effect (Op.CopyImage from to src_x src_y area.left area.top area.width area.height) src.now [] [] out.old }
{
    copy_area(canvas(from), src, src_x, src_y, canvas(to), area, out);
}

#[tactic(auto, using(crate::proofs::Fitting::upload_fits))]
pub(crate) fn buffer_to_image(from: Shape, to: Shape, offset: u32, src: &[u8], out: &mut [u8])
    requires fits { fits (Op.BufferToImage from to offset) ≡ true }
    requires src { length src.now ≡ bytes_of from }
    requires out { length out.old ≡ bytes_of to }
    ensures { out.new ≡ effect (Op.BufferToImage from to offset) src.now [] [] out.old }
{
    let start = offset as usize;
    out.copy_from_slice(&src[start..start + out.len()]);
}

#[tactic(auto, using(crate::proofs::Fitting::download_fits))]
pub(crate) fn image_to_buffer(from: Shape, to: Shape, offset: u32, src: &[u8], out: &mut [u8])
    requires fits { fits (Op.ImageToBuffer from to offset) ≡ true }
    requires src { length src.now ≡ bytes_of from }
    requires out { length out.old ≡ bytes_of to }
    ensures { out.new ≡ effect (Op.ImageToBuffer from to offset) src.now [] [] out.old }
{
    let start = offset as usize;
    out[start..start + src.len()].copy_from_slice(src);
}
