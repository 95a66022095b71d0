//! Bytes and rectangles that go across.

ghost use Rattle.std.specs.Prelude.{◌≡◌, ◌+◌, ◌-◌, ◌^◌, ◌<◌, ◌≤◌, length, slice_range};
ghost use Rattle.base.specs.Applied.{replaced};
ghost use Rattle.base.specs.Texels.{picture, painted};
ghost use Rattle.kernel.specs.Bands.{HasRows};
ghost use Rattle.kernel.specs.Pictures.{inside_else, moved};

use crate::repainting::{Area, repaint};
use crate::texels::pick;
use base::Grid;

/// So many bytes, from one offset to the other.
pub fn copy_range(src: &[u8], src_offset: usize, size: usize, offset: usize, out: &mut [u8])
    requires src { src_offset + size ≤ length src.now }
    requires out { offset + size ≤ length out.old }
    ensures { out.new ≡ replaced out.old offset size (slice_range src.now src_offset (src_offset + size)) }
{
    out[offset..offset + size].copy_from_slice(&src[src_offset..src_offset + size]);
}

/// The texels from (`src_x`, `src_y`) on go to the area.
pub fn copy_area(
    from: Grid,
    src: &[u8],
    src_x: u32,
    src_y: u32,
    to: Grid,
    area: Area,
    out: &mut [u8],
)
    requires src { HasRows from from.height src.now }
    requires out { HasRows to to.height out.old }
    requires src_columns { src_x + area.width ≤ from.width }
    requires src_rows { src_y + area.height ≤ from.height }
    requires columns { area.left + area.width ≤ to.width }
    requires rows { area.top + area.height ≤ to.height }
    ensures { out.new ≡ painted to (inside_else area (moved src_x src_y area.left area.top (picture from src.now)) (picture to out.old)) }
{
    repaint(
        to,
        area,
        out,
        |_old: u32, x: u32, y: u32| -> u32
            requires { HasRows from from.height src.now × (from.width < 2 ^ 32) × (from.height < 2 ^ 32) × (area.left ≤ x) × (src_x + (x - area.left) < from.width) × (area.top ≤ y) × (src_y + (y - area.top) < from.height) }
            ensures { result ≡ moved src_x src_y area.left area.top (picture from src.entry.now) x y }
        { pick(from, src, src_x + (x - area.left), src_y + (y - area.top)) },
    );
}
