//! Spots in a file.

ghost use Rattle.std.specs.Prelude.{◌≡◌, Some, IfOk, IfSome, string_bytes};
ghost use Rattle.file_frame.specs.Spots.{spot_at, spot_data, with_layer, spot_of, layered_spot, layer_of, FitsSpot};

use base::Name;
use file_json::{Location, NameForm, ReadError, Reader, Writer};
use frame::Spot;
use serde_json::Value;
use std::alloc::{AllocError, Global};

/// A spot: the name of a resource and, in files of format 2, maybe `/` and the number of a layer behind it.
pub struct SpotForm<const FORMAT: u32>;

// What stands behind the name, from the slash on.
fn layer(end: &[u8]) -> Option<u32>
    ensures layer { result ≡ layer_of end.now }
{
    match end {
        [b'/', digit @ b'0'..=b'7'] => Some(u32::from(digit - b'0')),
        _ => None,
    }
}

fn layered_spot(text: &[u8]) -> Option<Spot>
    ensures spot { result ≡ layered_spot text.now }
    ensures fits { IfSome result FitsSpot }
{
    let (name, end) = text.split_at(text.len().saturating_sub(2));
    let name = Name::read(name)?;
    let layer = layer(end)?;
    Some(Spot {
        name,
        layer: Some(layer),
    })
}

fn spot<const FORMAT: u32>(text: &[u8]) -> Option<Spot>
    ensures spot { result ≡ spot_of FORMAT text.now }
    ensures fits { IfSome result FitsSpot }
{
    match Name::read(text) {
        Some(name) => Some(Spot { name, layer: None }),
        None => if FORMAT == 1 {
            None
        } else {
            layered_spot(text)
        },
    }
}

impl<const FORMAT: u32> Reader for SpotForm<FORMAT> {
    type Out = Spot;

    ghost reads = { spot_at FORMAT };

    ghost Fits = { FitsSpot };

    fn read(alloc: Global, at: &Location<'_>, value: &Value) -> Result<Spot, ReadError> {
        match value.as_str() {
            Some(text) => match spot::<FORMAT>(text.as_bytes()) {
                Some(found) => Ok(found),
                None => Err(at.refused(alloc)),
            },
            None => Err(at.refused(alloc)),
        }
    }
}

fn layered_text(alloc: Global, name: &Name, layer: u32) -> Result<String, AllocError>
    ensures { IfOk result (λ text. string_bytes text ≡ with_layer name.now (Some layer)) }
{
    format!(in alloc; "{}/{layer}", name.as_str())
}

impl<const FORMAT: u32> Writer for SpotForm<FORMAT> {
    type In = Spot;

    ghost writes = { spot_data };

    fn write(alloc: Global, spot: &Spot) -> Result<Value, AllocError> {
        match spot.layer {
            None => NameForm::write(alloc, &spot.name),
            Some(layer) => Ok(Value::String(layered_text(alloc, &spot.name, layer)?)),
        }
    }
}
