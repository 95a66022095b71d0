//! A draw into an attachment.

ghost use Rattle.std.specs.Prelude.{◌≡◌, ◌<◌, true, [], Option, length};
ghost use Rattle.std.specs.List.{list_all};
ghost use Rattle.base.specs.Applied.{effect, begun};
ghost use Rattle.base.specs.Fits.{has_drawn};
ghost use Rattle.base.specs.Kernels.{mixed, under};
ghost use Rattle.base.specs.Shapes.{bytes_of, is_image};
ghost use Rattle.base.specs.Texels.{painted, picture};
ghost use Rattle.kernel.specs.Bands.{HasRows};
ghost use Rattle.kernel.specs.Rects.{IsWithin};

use crate::mix::mixed_with;
use crate::{Area, canvas, clear_rows, cut, repaint};
use base::{Grid, Op, Rect, Shape};

/// Draws into an image: with `clear` each texel is first that value, then the rectangles change theirs, in order.
pub fn draw(shape: Shape, clear: Option<u32>, rects: &[Rect], out: &mut [u8])
    requires image { is_image shape ≡ true }
    requires inside { list_all (has_drawn shape) rects.now ≡ true }
    requires out { length out.old ≡ bytes_of shape }
    ensures { out.new ≡ effect (Op.Draw shape clear rects.now) [] [] [] out.old }
{
    let grid = canvas(shape);
    begin(grid, clear, out);
    for rect in rects {
        draw_rect(grid, rect, out);
    }
}

fn begin(grid: Grid, clear: Option<u32>, out: &mut [u8])
    requires { HasRows grid grid.height out.old }
    ensures { out.new ≡ painted grid (begun grid clear out.old) }
{
    match clear {
        Some(value) => clear_rows(grid, cut(grid.texel, value), 0, grid.height, out),
        None => {}
    }
}

fn draw_rect(grid: Grid, rect: &Rect, out: &mut [u8])
    requires size { HasRows grid grid.height out.old }
    requires inside { IsWithin grid rect.now }
    ensures { out.new ≡ painted grid (under grid.texel (picture grid out.old) rect.now) }
{
    let area = Area {
        left: rect.x,
        top: rect.y,
        width: rect.width,
        height: rect.height,
    };
    let value = cut(grid.texel, rect.value);
    let mix = rect.mix;
    repaint(
        grid,
        area,
        out,
        |old: u32, _x: u32, _y: u32| -> u32
            ensures { result ≡ mixed mix old value }
        { mixed_with(mix, old, value) },
    );
}
