//! Rows of texels.

ghost use Rattle.std.specs.Prelude.{◌≡◌};
ghost use Rattle.base.specs.Shapes.{grid_eq};

use crate::Texel;

/// What kernels see of a resource: texels in rows.
#[derive(Clone, Copy, Debug, PartialEq, Eq)]
pub struct Grid {
    pub width: u32,
    pub height: u32,
    pub texel: Texel,
}

impl Grid {
    pub(crate) fn is_same(self, other: Grid) -> bool
        ensures { result ≡ grid_eq self other }
    {
        self.width == other.width && self.height == other.height && self.texel == other.texel
    }
}
