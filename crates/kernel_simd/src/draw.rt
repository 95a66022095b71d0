//! Rectangles over a clear.

ghost use Rattle.std.specs.Prelude.{◌≡◌, ℕ, ◌+◌, ◌≤◌, true, [], length};
ghost use Rattle.std.specs.List.{list_all};
ghost use Rattle.base.specs.Applied.{effect, begun};
ghost use Rattle.base.specs.Fits.{has_drawn};
ghost use Rattle.base.specs.Shapes.{bytes_of, is_image};
ghost use Rattle.base.specs.Texels.{band, canvas_of, painted, picture};
ghost use Rattle.kernel.specs.Bands.{HasRows};

use crate::bands::paint_rows;
use crate::target::Target;
use base::{Op, Rect, Shape};
use bytes::BytesMut;
use kernel::{canvas, clear_rows, draw};
use std::thread::Threads;

/// One number everywhere.
#[tactic(auto, using(kernel::proofs::Fitting::image_bytes))]
pub(crate) fn clear<R: Threads + Sync>(
    rt: &R,
    helpers: usize,
    to: Shape,
    value: u32,
    out: Target,
) -> BytesMut
    requires image { is_image to ≡ true }
    requires out { length out ≡ bytes_of to }
    ensures bytes { result.items ≡ painted (canvas_of to) (λ x y. value) }
    ensures long { length result.items ≡ length out }
{
    let grid = canvas(to);
    paint_rows(
        rt,
        helpers,
        grid.texel,
        grid.width,
        grid.height,
        out,
        |first: u32, count: u32, rows: &mut [u8]|
            requires { HasRows grid count rows.old × (first + count ≤ grid.height) }
            ensures { rows.new ≡ band grid.texel grid.width first count (λ x y. value) }
        { clear_rows(grid, value, first, count, rows) },
    )
}

// What the rectangles are drawn over.
fn cleared<R: Threads + Sync>(
    rt: &R,
    helpers: usize,
    to: Shape,
    clear_to: Option<u32>,
    out: Target,
) -> BytesMut
    requires image { is_image to ≡ true }
    requires out { length out ≡ bytes_of to }
    ensures long { length result.items ≡ length out }
    ensures same { painted (canvas_of to) (picture (canvas_of to) result.items) ≡ painted (canvas_of to) (begun (canvas_of to) clear_to out) }
{
    match clear_to {
        Some(value) => clear(rt, helpers, to, value, out),
        None => out.into_bytes(),
    }
}

/// Draws into an image: with `clear` each texel is first that value, then the rectangles change theirs, in order.
pub(crate) fn draw_over<R: Threads + Sync>(
    rt: &R,
    helpers: usize,
    to: Shape,
    clear_to: Option<u32>,
    rects: &[Rect],
    out: Target,
) -> BytesMut
    requires image { is_image to ≡ true }
    requires inside { list_all (has_drawn to) rects.now ≡ true }
    requires out { length out ≡ bytes_of to }
    ensures bytes { result.items ≡ effect (Op.Draw to clear_to rects.now) [] [] [] out }
    ensures long { length result.items ≡ length out }
{
    let mut bytes = cleared(rt, helpers, to, clear_to, out);
    draw(to, None, rects, bytes.as_mut_slice());
    bytes
}
