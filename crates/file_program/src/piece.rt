//! Pieces as they are written.

ghost use Rattle.std.specs.Prelude.{◌≡◌, IfOk};
ghost use Rattle.file_program.specs.Pieces.{buffer_data, image_data, piece_data};
ghost use Rattle.serde_json.specs.View.{view};

use base::{Shape, Texel};
use file_json::{NumberForm, TextForm, Writer, with_form, with_member, with_text};
use file_shapes::TexelWord;
use program::Piece;
use serde_json::{Map, Value, json};
use std::alloc::{AllocError, Global};
use vk::Sharing;

/// A piece as an entry of its own. `sharing` is written where it is concurrent, and `layers` never.
pub struct PieceForm;

fn buffer_value(
    alloc: Global,
    size: u32,
    memory: u32,
    offset: u32,
    sharing: Sharing,
) -> Result<Value, AllocError>
    ensures { IfOk result (λ json. view json ≡ buffer_data size memory offset sharing) }
{
    let members = with_form::<NumberForm>(alloc, Map::new(alloc), "buffer", &size)?;
    let members = with_form::<NumberForm>(alloc, members, "memory", &memory)?;
    let members = with_form::<NumberForm>(alloc, members, "offset", &offset)?;
    match sharing {
        Sharing::Exclusive => Ok(Value::Object(members)),
        Sharing::Concurrent => {
            Ok(Value::Object(with_text(alloc, members, "sharing", "concurrent")?))
        }
    }
}

fn image_value(
    alloc: Global,
    sides: (u32, u32),
    texel: Texel,
    memory: u32,
    offset: u32,
    sharing: Sharing,
) -> Result<Value, AllocError>
    ensures { IfOk result (λ json. view json ≡ image_data sides.0 sides.1 texel memory offset sharing) }
{
    let sides = json!(in alloc; [sides.0, sides.1])?;
    let members = with_member(alloc, Map::new(alloc), "image", sides)?;
    let members = with_form::<NumberForm>(alloc, members, "memory", &memory)?;
    let members = with_form::<NumberForm>(alloc, members, "offset", &offset)?;
    let members = with_form::<TextForm<TexelWord>>(alloc, members, "texel", &texel)?;
    match sharing {
        Sharing::Exclusive => Ok(Value::Object(members)),
        Sharing::Concurrent => {
            Ok(Value::Object(with_text(alloc, members, "sharing", "concurrent")?))
        }
    }
}

impl Writer for PieceForm {
    type In = Piece;

    ghost writes = { piece_data };

    fn write(alloc: Global, piece: &Piece) -> Result<Value, AllocError> {
        match piece.shape {
            Shape::Buffer { size } => {
                buffer_value(alloc, size, piece.memory, piece.offset, piece.sharing)
            }
            Shape::Image {
                width,
                height,
                texel,
            } => image_value(
                alloc,
                (width, height),
                texel,
                piece.memory,
                piece.offset,
                piece.sharing,
            ),
        }
    }
}
