//! Resources in a file.

ghost use Rattle.std.specs.Prelude.{◌≡◌, map, IfOk};
ghost use Rattle.file_json.specs.Locations.{legs};
ghost use Rattle.file_json.specs.Reading.{Gives};
ghost use Rattle.file_frame.specs.Resources.{import_at, members_of, resource_at, resource_data, FitsImport, FitsResource};
ghost use Rattle.serde_json.specs.View.{view};

use crate::resource_members::resource_members;
use base::{List, Shape};
use file_json::{
    Location, NameForm, ReadError, Reader, Writer, object, optional, others, required,
};
use file_shapes::{HexForm, read_body, read_sharing};
use frame::Resource;
use serde_json::Value;
use std::alloc::{AllocError, Global};

/// An entry of `resources`.
pub struct ResourceForm<const FORMAT: u32>;

// The bytes of a buffer that the host filled. An image has none, and `import` is unknown there.
fn import(
    alloc: Global,
    at: &Location<'_>,
    shape: Shape,
    value: &Value,
) -> Result<Option<List<u8>>, ReadError>
    ensures gives { Gives result (import_at shape (legs at.now) (view value.now)) }
    ensures fits { IfOk result (FitsImport shape) }
{
    match shape {
        Shape::Buffer { .. } => optional::<HexForm>(alloc, at, "import", value),
        Shape::Image { .. } => Ok(None),
    }
}

// The members of a resource of this shape, in a file of this format.
fn members<const FORMAT: u32>(shape: Shape) -> &'static [&'static str]
    ensures { map (λ name. name.now) result.now ≡ members_of FORMAT shape }
{
    match shape {
        Shape::Buffer { .. } => if FORMAT == 1 {
            &["name", "buffer", "import"]
        } else {
            &["name", "buffer", "import", "sharing"]
        },
        Shape::Image { .. } => if FORMAT == 1 {
            &["name", "image", "texel"]
        } else {
            &["name", "image", "texel", "layers", "sharing"]
        },
    }
}

impl<const FORMAT: u32> Reader for ResourceForm<FORMAT> {
    type Out = Resource;

    ghost reads = { resource_at FORMAT };

    ghost Fits = { FitsResource };

    #[tactic(auto, unfolding(crate::specs::Resources::resource_at))]
    fn read(alloc: Global, at: &Location<'_>, value: &Value) -> Result<Resource, ReadError> {
        object(alloc, at, value)?;
        let name = required::<NameForm>(alloc, at, "name", value)?;
        let body = read_body::<FORMAT>(alloc, at, value)?;
        let import = import(alloc, at, body.shape, value)?;
        let sharing = read_sharing::<FORMAT>(alloc, at, value)?;
        others(alloc, at, members::<FORMAT>(body.shape), value)?;
        Ok(Resource {
            name,
            shape: body.shape,
            layers: body.layers,
            import,
            sharing,
        })
    }
}

impl<const FORMAT: u32> Writer for ResourceForm<FORMAT> {
    type In = Resource;

    ghost writes = { resource_data };

    fn write(alloc: Global, resource: &Resource) -> Result<Value, AllocError> {
        Ok(Value::Object(resource_members(alloc, resource)?))
    }
}
