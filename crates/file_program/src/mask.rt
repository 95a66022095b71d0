//! Masks in a file: the names of stages or of accesses, joined by bars.

ghost use Rattle.std.specs.Prelude.{◌≡◌, ◌<◌, ℕ, List, Some, IfOk, IfSome, option_map, slice_get, string_bytes};
ghost use Rattle.vk.specs.Texts.{joined};
ghost use Rattle.file_json.specs.Leaves.{text_at, text_data};
ghost use Rattle.file_program.specs.Masks.{stages_of, names_of_stages, FitsStages, accesses_of, names_of_accesses, FitsAccesses};

use file_json::{Location, ReadError, Reader, Writer};
use serde_json::Value;
use std::alloc::{AllocError, Global};
use std::marker::PhantomData;
use vk::{Accesses, Stages};

/// A set that a text of names stands for.
pub trait Mask {
    ghost use Rattle.std.specs.declared.option.Option.{Option};

    /// The set that a text stands for.
    ghost value_of: { List ℕ → Option Self };

    /// The names of a set, in the order in which they are written.
    ghost names: { Self → List (List ℕ) };

    /// What the format says of a set.
    ghost Fits: { Self → Type 0 };

    fn value(text: &[u8]) -> Option<Self>
        ensures value { result ≡ value_of text.now }
        ensures fits { IfSome result Fits };

    /// The name with the number `k` among those of a set, which are 16 at most.
    fn name(&self, k: u32) -> Option<&'static str>
        ensures name { option_map (λ name. name.now) result ≡ slice_get (names self.now) k }
        ensures few { IfSome result (λ _. k < 16) };
}

impl Mask for Stages {
    ghost value_of = { stages_of };

    ghost names = { names_of_stages };

    ghost Fits = { FitsStages };

    fn value(text: &[u8]) -> Option<Stages> {
        Stages::read(text)
    }

    fn name(&self, k: u32) -> Option<&'static str> {
        self.put(k)
    }
}

impl Mask for Accesses {
    ghost value_of = { accesses_of };

    ghost names = { names_of_accesses };

    ghost Fits = { FitsAccesses };

    fn value(text: &[u8]) -> Option<Accesses> {
        Accesses::read(text)
    }

    fn name(&self, k: u32) -> Option<&'static str> {
        self.put(k)
    }
}

/// A mask as text.
pub struct MaskForm<M> {
    mask: PhantomData<M>,
}

/// Stages as text.
pub type StagesForm = MaskForm<Stages>;

/// Accesses as text.
pub type AccessesForm = MaskForm<Accesses>;

impl<M: Mask + Drop> Reader for MaskForm<M> {
    type Out = M;

    ghost reads = { text_at M.value_of };

    ghost Fits = { M.Fits };

    fn read(alloc: Global, at: &Location<'_>, json: &Value) -> Result<M, ReadError> {
        match json.as_str() {
            Some(text) => match M::value(text.as_bytes()) {
                Some(mask) => Ok(mask),
                None => Err(at.refused(alloc)),
            },
            None => Err(at.refused(alloc)),
        }
    }
}

fn joined<M: Mask>(alloc: Global, mask: &M) -> Result<String, AllocError>
    ensures { IfOk result (λ text. string_bytes text ≡ joined (M.names mask.now)) }
{
    let Some(first) = mask.name(0) else {
        return Ok(String::new(alloc));
    };
    let mut text = String::from_str(alloc, first)?;
    let mut k = 1;
    while let Some(name) = mask.name(k) {
        text.push_str("|")?;
        text.push_str(name)?;
        k += 1;
    }
    Ok(text)
}

impl<M: Mask> Writer for MaskForm<M> {
    type In = M;

    ghost writes = { text_data (λ mask. joined (M.names mask)) };

    fn write(alloc: Global, mask: &M) -> Result<Value, AllocError> {
        Ok(Value::String(joined(alloc, mask)?))
    }
}
