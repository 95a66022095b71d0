//! Whole numbers.

ghost use Rattle.std.specs.Prelude.{◌≡◌};
ghost use Rattle.file_json.specs.Leaves.{number_at, number_data, within, FitsRange, FitsWhole};

use crate::{Location, ReadError, Reader, Typed, Writer};
use serde_json::Value;
use std::alloc::{AllocError, Global};

/// A whole number from `LEAST` to `MOST`: a JSON number with no fraction, exponent or minus sign.
pub struct RangeForm<const LEAST: u32, const MOST: u32>;

/// A whole number that a `u32` holds.
pub type NumberForm = RangeForm<0, { u32::MAX }>;

fn within(number: u64, least: u32, most: u32) -> Option<u32>
    ensures { result ≡ within least most number }
{
    if number < u64::from(least) || u64::from(most) < number {
        return None;
    }
    Some(number as u32)
}

impl<const LEAST: u32, const MOST: u32> Reader for RangeForm<LEAST, MOST> {
    type Out = u32;

    ghost reads = { number_at LEAST MOST };

    ghost Fits = { FitsRange LEAST MOST };

    fn read(alloc: Global, at: &Location<'_>, value: &Value) -> Result<u32, ReadError> {
        match value.as_u64() {
            Some(number) => match within(number, LEAST, MOST) {
                Some(number) => Ok(number),
                None => Err(at.refused(alloc)),
            },
            None => Err(at.refused(alloc)),
        }
    }
}

impl<const LEAST: u32, const MOST: u32> Writer for RangeForm<LEAST, MOST> {
    type In = u32;

    ghost writes = { number_data };

    fn write(_alloc: Global, number: &u32) -> Result<Value, AllocError> {
        Ok(Value::from(*number))
    }
}

impl<const LEAST: u32, const MOST: u32> Typed for RangeForm<LEAST, MOST> {
    type Of = u32;

    ghost Says = { FitsWhole };

    fn look(number: &u32) {
        let _number = *number;
    }
}
