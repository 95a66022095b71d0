//! Shapes as the grids that kernels work on.

ghost use Rattle.std.specs.Prelude.{◌≡◌};
ghost use Rattle.base.specs.Texels.{canvas_of};

use base::{Grid, Shape, Texel};

/// The texels of an image, or the words of a buffer in one row.
pub fn canvas(shape: Shape) -> Grid
    ensures { result ≡ canvas_of shape }
{
    match shape {
        Shape::Buffer { size } => Grid {
            width: size / 4,
            height: 1,
            texel: Texel::R32,
        },
        Shape::Image {
            width,
            height,
            texel,
        } => Grid {
            width,
            height,
            texel,
        },
    }
}
