//! What resources are, and where commands run.

ghost use Rattle.std.specs.Prelude.{◌≡◌, ◌<◌, ◌≤◌, ◌^◌, length};
ghost use Rattle.base.specs.Bounds.{sides_allowed, size_allowed};
ghost use Rattle.base.specs.Families.{family_name};
ghost use Rattle.base.specs.Shapes.{bytes_of, texel_bytes, grid_of, is_buffer, is_image, has_texel, has_sides, same_texel, same_sides, twice_the_sides, same_grid, shape_at};
ghost use Rattle.base.specs.declared.shape.Shape.TheVariants.{Buffer};

use crate::Grid;
use crate::maxima::{MAX_SIDE, MAX_SIZE};

/// A queue family, by what its queues can do: graphics queues everything, compute queues all but draws, transfer queues
/// only copies and fills of buffers.
#[derive(Clone, Copy, Debug, PartialEq, Eq)]
pub enum Family {
    Graphics,
    Compute,
    Transfer,
}

/// A texel of an image: one unsigned number of 8 bits (`R8_UINT`) or 32 bits (`R32_UINT`, little endian).
#[derive(Clone, Copy, Debug, PartialEq, Eq)]
pub enum Texel {
    R8,
    R32,
}

/// What the bytes of a resource stand for. A size is in bytes, width and height are in texels; rows stand in order.
#[derive(Clone, Copy, Debug, PartialEq, Eq)]
pub enum Shape {
    Buffer {
        size: u32,
    },
    Image {
        width: u32,
        height: u32,
        texel: Texel,
    },
}

impl Family {
    /// The name in files and texts.
    pub fn name(self) -> &'static str
        ensures { result.now ≡ family_name self }
    {
        match self {
            Family::Graphics => "graphics",
            Family::Compute => "compute",
            Family::Transfer => "transfer",
        }
    }
}

impl Texel {
    /// The number of bytes of a texel.
    pub fn bytes(self) -> u32
        ensures bytes { result ≡ texel_bytes self }
        ensures few { result ≤ 4 }
    {
        match self {
            Texel::R8 => 1,
            Texel::R32 => 4,
        }
    }
}

impl Shape {
    #[tactic(auto, using(crate::proofs::Sizes::image_fits))]
    /// The number of bytes. Sides of any size are allowed, so it can go over 64 bits.
    pub fn bytes(self) -> u128
        ensures bytes { result ≡ bytes_of self }
        ensures fits { result < 2 ^ 67 }
    {
        match self {
            Shape::Buffer { size } => size as u128,
            Shape::Image {
                width,
                height,
                texel,
            } => width as u128 * height as u128 * texel.bytes() as u128,
        }
    }

    /// The texels that kernels see: an image's own, or the words of a buffer of whole words in one row.
    pub fn grid(self) -> Option<Grid>
        ensures { result ≡ grid_of self }
    {
        match self {
            Shape::Buffer { size } => words(size),
            Shape::Image {
                width,
                height,
                texel,
            } => Some(Grid {
                width,
                height,
                texel,
            }),
        }
    }

    pub fn is_buffer(self) -> bool
        ensures { result ≡ is_buffer self }
    {
        match self {
            Shape::Buffer { .. } => true,
            Shape::Image { .. } => false,
        }
    }

    pub fn is_image(self) -> bool
        ensures { result ≡ is_image self }
    {
        !self.is_buffer()
    }

    /// Whether an image has 1 to 4,096 texels on each side. A buffer has no sides.
    pub fn sides_allowed(self) -> bool
        ensures { result ≡ sides_allowed self }
    {
        match self {
            Shape::Buffer { .. } => true,
            Shape::Image { width, height, .. } => {
                1 <= width && width <= MAX_SIDE && (1 <= height && height <= MAX_SIDE)
            }
        }
    }

    /// Whether it has 1 byte to 16 MiB.
    pub fn size_allowed(self) -> bool
        ensures { result ≡ size_allowed self }
    {
        let bytes = self.bytes();
        1 <= bytes && bytes <= MAX_SIZE
    }

    // An image with such texels.
    pub(crate) fn has_texel(self, texel: Texel) -> bool
        ensures { result ≡ has_texel texel self }
    {
        match self {
            Shape::Buffer { .. } => false,
            Shape::Image { texel: own, .. } => texel == own,
        }
    }

    // An image with these sides.
    pub(crate) fn has_sides(self, width: u64, height: u64) -> bool
        ensures { result ≡ has_sides width height self }
    {
        match self {
            Shape::Buffer { .. } => false,
            Shape::Image {
                width: w,
                height: h,
                ..
            } => width == w as u64 && height == h as u64,
        }
    }

    // Both are images, with one texel.
    pub(crate) fn same_texel(self, other: Shape) -> bool
        ensures { result ≡ same_texel self other }
    {
        match self {
            Shape::Buffer { .. } => false,
            Shape::Image { texel, .. } => other.has_texel(texel),
        }
    }

    // Both are images, with equal sides.
    pub(crate) fn same_sides(self, other: Shape) -> bool
        ensures { result ≡ same_sides self other }
    {
        match self {
            Shape::Buffer { .. } => false,
            Shape::Image { width, height, .. } => other.has_sides(width as u64, height as u64),
        }
    }

    // Both are images, and the other's sides are half of the own.
    pub(crate) fn twice_the_sides(self, other: Shape) -> bool
        ensures { result ≡ twice_the_sides self other }
    {
        match other {
            Shape::Buffer { .. } => false,
            Shape::Image { width, height, .. } => self.has_sides(
                2 * width as u64,
                2 * height as u64,
            ),
        }
    }

    // Both have a grid, and it is one.
    pub(crate) fn same_grid(self, other: Shape) -> bool
        ensures { result ≡ same_grid self other }
    {
        match (self.grid(), other.grid()) {
            (Some(a), Some(b)) => a.is_same(b),
            _ => false,
        }
    }
}

/// The shape of the resource with the number `n`.
pub fn shape_at(shapes: &[Shape], n: u32) -> Shape
    requires { n < length shapes.now }
    ensures { result ≡ shape_at shapes.now n }
{
    shapes[n as usize]
}

fn words(size: u32) -> Option<Grid>
    ensures { result ≡ grid_of (Buffer size) }
{
    if size % 4 != 0 {
        return None;
    }
    Some(Grid {
        width: size / 4,
        height: 1,
        texel: Texel::R32,
    })
}
