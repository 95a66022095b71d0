//! The members of a resource as they are written.

ghost use Rattle.std.specs.Prelude.{◌≡◌, option_map, IfOk};
ghost use Rattle.file_frame.specs.Resources.{put_maybe, layers_data, sharing_data, shape_members, resource_members};
ghost use Rattle.file_shapes.specs.Hexadecimal.{hex_data};
ghost use Rattle.serde_json.specs.View.{view, members_view};

use base::{List, Shape};
use file_json::{Members, NameForm, TextForm, Writer, with_form, with_member};
use file_shapes::{HexForm, SharingWord, TexelWord};
use frame::{Resource, Sharing};
use serde_json::{Map, Value, json};
use std::alloc::{AllocError, Global};

fn with_maybe(
    alloc: Global,
    members: Members,
    name: &str,
    value: Option<Value>,
) -> Result<Members, AllocError>
    ensures { IfOk result (λ more. members_view more.entries ≡ put_maybe name.now (option_map view value) (members_view members.entries)) }
{
    match value {
        None => Ok(members),
        Some(value) => with_member(alloc, members, name, value),
    }
}

fn with_shape(alloc: Global, members: Members, shape: Shape) -> Result<Members, AllocError>
    ensures { IfOk result (λ more. members_view more.entries ≡ shape_members shape (members_view members.entries)) }
{
    match shape {
        Shape::Buffer { size } => with_member(alloc, members, "buffer", Value::from(size)),
        Shape::Image {
            width,
            height,
            texel,
        } => {
            let members = with_form::<TextForm<TexelWord>>(alloc, members, "texel", &texel)?;
            let sides = json!(in alloc; [width, height])?;
            with_member(alloc, members, "image", sides)
        }
    }
}

fn import_value(alloc: Global, import: &Option<List<u8>>) -> Result<Option<Value>, AllocError>
    ensures { IfOk result (λ value. option_map view value ≡ option_map hex_data import.now) }
{
    match import {
        None => Ok(None),
        Some(bytes) => Ok(Some(HexForm::write(alloc, bytes)?)),
    }
}

fn layers_value(layers: u32) -> Option<Value>
    ensures { option_map view result ≡ layers_data layers }
{
    if layers == 1 {
        return None;
    }
    Some(Value::from(layers))
}

fn sharing_value(alloc: Global, sharing: Sharing) -> Result<Option<Value>, AllocError>
    ensures { IfOk result (λ value. option_map view value ≡ sharing_data sharing) }
{
    match sharing {
        Sharing::Exclusive => Ok(None),
        Sharing::Concurrent => Ok(Some(<TextForm<SharingWord>>::write(alloc, &sharing)?)),
    }
}

/// The members of a resource. `import` is written where it is there, `layers` where it is not 1, and `sharing` where the
/// resource is concurrent.
pub fn resource_members(alloc: Global, resource: &Resource) -> Result<Members, AllocError>
    ensures { IfOk result (λ members. members_view members.entries ≡ resource_members resource.now) }
{
    let members = with_form::<NameForm>(alloc, Map::new(alloc), "name", &resource.name)?;
    let members = with_shape(alloc, members, resource.shape)?;
    let import = import_value(alloc, &resource.import)?;
    let members = with_maybe(alloc, members, "import", import)?;
    let members = with_maybe(alloc, members, "layers", layers_value(resource.layers))?;
    let sharing = sharing_value(alloc, resource.sharing)?;
    with_maybe(alloc, members, "sharing", sharing)
}
