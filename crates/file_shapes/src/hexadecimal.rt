//! Bytes in a file.

ghost use Rattle.std.specs.Prelude.{IfOk};
ghost use Rattle.hex.specs.Hex.{IsBytes};
ghost use Rattle.file_shapes.specs.Hexadecimal.{hex_at, hex_data, hex_of, HexGives};

use base::List;
use file_json::{Location, ReadError, Reader, Typed, Writer};
use hex::FromHexError;
use serde_json::Value;
use std::alloc::{AllocError, Global};

/// Bytes as a text of two hexadecimal digits each. Digits are read in either case, and written in lower case.
pub struct HexForm;

/// Why a text gave no bytes.
#[derive(Clone, Copy, Debug, PartialEq, Eq)]
enum HexError {
    NoMemory,
    NoBytes,
}

fn decode(alloc: Global, text: &str) -> Result<List<u8>, HexError>
    ensures gives { HexGives result (hex_of text.now) }
    ensures fits { IfOk result IsBytes }
{
    match hex::decode(alloc, text) {
        Ok(bytes) => Ok(List::from_vec(bytes)),
        Err(FromHexError::OutOfMemory) => Err(HexError::NoMemory),
        Err(_) => Err(HexError::NoBytes),
    }
}

impl Reader for HexForm {
    type Out = List<u8>;

    ghost reads = { hex_at };

    ghost Fits = { IsBytes };

    fn read(alloc: Global, at: &Location<'_>, value: &Value) -> Result<List<u8>, ReadError> {
        let Some(text) = value.as_str() else {
            return Err(at.refused(alloc));
        };
        match decode(alloc, text) {
            Ok(bytes) => Ok(bytes),
            Err(HexError::NoMemory) => Err(ReadError::NoMemory),
            Err(HexError::NoBytes) => Err(at.refused(alloc)),
        }
    }
}

impl Writer for HexForm {
    type In = List<u8>;

    ghost writes = { hex_data };

    fn write(alloc: Global, bytes: &List<u8>) -> Result<Value, AllocError> {
        let text = hex::encode(alloc, bytes.as_slice())?;
        Ok(Value::String(text))
    }
}

fn look_at_bytes(bytes: &[u8])
    ensures { IsBytes bytes.now }
{}

impl Typed for HexForm {
    type Of = List<u8>;

    ghost Says = { IsBytes };

    fn look(bytes: &List<u8>) {
        look_at_bytes(bytes.as_slice());
    }
}
