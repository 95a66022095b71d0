//! What a resource is made of, in a file.

ghost use Rattle.std.specs.Prelude.{◌≡◌, IfOk};
ghost use Rattle.file_json.specs.Leaves.{FitsRange};
ghost use Rattle.file_json.specs.Locations.{legs};
ghost use Rattle.file_json.specs.Reading.{Gives};
ghost use Rattle.file_shapes.specs.Bodies.{body_at, image_at, layers_at, is_buffer, FitsBody};
ghost use Rattle.serde_json.specs.View.{view};

use crate::{SidesForm, TexelWord};
use base::Shape;
use file_json::{Location, RangeForm, ReadError, TextForm, optional, required};
use serde_json::Value;
use std::alloc::Global;

/// A shape, and how many layers of it there are: 1 for a buffer.
#[derive(Clone, Copy, Debug, PartialEq, Eq)]
pub struct Body {
    pub shape: Shape,
    pub layers: u32,
}

// With both members it is a buffer, and `image` is unknown; with neither, `buffer` is absent.
fn is_buffer(json: &Value) -> bool
    ensures { result ≡ is_buffer (view json.now) }
{
    json.get("buffer").is_some() || json.get("image").is_none()
}

fn layers<const FORMAT: u32>(
    alloc: Global,
    at: &Location<'_>,
    json: &Value,
) -> Result<u32, ReadError>
    ensures gives { Gives result (layers_at FORMAT (legs at.now) (view json.now)) }
    ensures fits { IfOk result (FitsRange 1 8) }
{
    if FORMAT == 1 {
        return Ok(1);
    }
    let layers = optional::<RangeForm<1, 8>>(alloc, at, "layers", json)?;
    Ok(layers.unwrap_or(1))
}

fn image<const FORMAT: u32>(
    alloc: Global,
    at: &Location<'_>,
    json: &Value,
) -> Result<Body, ReadError>
    ensures gives { Gives result (image_at FORMAT (legs at.now) (view json.now)) }
    ensures fits { IfOk result FitsBody }
{
    let sides = required::<SidesForm>(alloc, at, "image", json)?;
    let texel = required::<TextForm<TexelWord>>(alloc, at, "texel", json)?;
    let layers = layers::<FORMAT>(alloc, at, json)?;
    Ok(Body {
        shape: Shape::Image {
            width: sides.width,
            height: sides.height,
            texel,
        },
        layers,
    })
}

/// The member `buffer`; or `image`, `texel` and, in files of format 2, `layers`. That the value is an object, and that
/// it has no unknown member, is for the caller to test.
pub fn read_body<const FORMAT: u32>(
    alloc: Global,
    at: &Location<'_>,
    json: &Value,
) -> Result<Body, ReadError>
    ensures gives { Gives result (body_at FORMAT (legs at.now) (view json.now)) }
    ensures fits { IfOk result FitsBody }
{
    if !is_buffer(json) {
        return image::<FORMAT>(alloc, at, json);
    }
    let size = required::<RangeForm<1, { u32::MAX }>>(alloc, at, "buffer", json)?;
    Ok(Body {
        shape: Shape::Buffer { size },
        layers: 1,
    })
}
