//! Whether queue families share a resource, in a file.

ghost use Rattle.std.specs.Prelude.{⊤};
ghost use Rattle.file_json.specs.Locations.{legs};
ghost use Rattle.file_json.specs.Reading.{Gives};
ghost use Rattle.file_shapes.specs.Sharings.{sharing_of, sharing_text, sharing_again, sharing_at};
ghost use Rattle.serde_json.specs.View.{view};

use file_json::{Location, ReadError, TextForm, Word, optional};
use serde_json::Value;
use std::alloc::Global;
use vk::Sharing;

/// The words of sharing modes.
pub struct SharingWord;

impl Word for SharingWord {
    type Of = Sharing;

    ghost value_of = { sharing_of };

    ghost text_of = { sharing_text };

    ghost Fits = { λ _. ⊤ };

    ghost again = { sharing_again };

    fn value(text: &str) -> Option<Sharing> {
        if text == "exclusive" {
            Some(Sharing::Exclusive)
        } else if text == "concurrent" {
            Some(Sharing::Concurrent)
        } else {
            None
        }
    }

    fn text(sharing: &Sharing) -> &str {
        match sharing {
            Sharing::Exclusive => "exclusive",
            Sharing::Concurrent => "concurrent",
        }
    }
}

/// The member `sharing`, which only files of format 2 have. Without it a resource is exclusive.
pub fn read_sharing<const FORMAT: u32>(
    alloc: Global,
    at: &Location<'_>,
    json: &Value,
) -> Result<Sharing, ReadError>
    ensures { Gives result (sharing_at FORMAT (legs at.now) (view json.now)) }
{
    if FORMAT == 1 {
        return Ok(Sharing::Exclusive);
    }
    let sharing = optional::<TextForm<SharingWord>>(alloc, at, "sharing", json)?;
    Ok(sharing.unwrap_or(Sharing::Exclusive))
}
