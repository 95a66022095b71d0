//! What is in each unit after all passes.

ghost use Rattle.std.specs.Prelude.{◌≡◌, ◌<◌, None, length, map, true, is_some, option_copied, IfOk, slice_index_or};
ghost use Rattle.std.specs.List.{All, range_with_len};
ghost use Rattle.frame.specs.Valid.{IsValid};
ghost use Rattle.frame.specs.Numbered.{numbered};
ghost use Rattle.frame_meaning.specs.Meaning.{all_bytes, meaning};

use crate::bytes::Bytes;
use crate::ops::ops_of;
use crate::stored::stored;
use base::{List, NoMemory};
use frame::ValidFrame;
use std::alloc::Global;
use std::marker::Model;

/// The bytes of each unit after all passes. A unit that is no import and that nothing is stored to has none.
#[derive(Drop)]
pub struct Pictures {
    bytes: Bytes,
    stored: List<bool>,
}

impl Model for Pictures {
    ghost use Rattle.std.specs.Prelude.{◌≡◌, ℕ, List, Option, length};
    ghost use Rattle.frame_meaning.specs.Internal.Stored.{chosen};

    ghost Value = { List (Option (List ℕ)) };

    ghost view = { λ p. chosen p.stored p.bytes };

    ghost invariant = { λ p. length p.stored ≡ length p.bytes };
}

impl Pictures {
    pub fn get(&self, unit: u32) -> Option<&[u8]>
        requires { unit < length self.now }
        ensures { option_copied result ≡ slice_index_or self.now unit None }
    {
        if self.stored[unit as usize] {
            Some(self.bytes.get(unit))
        } else {
            None
        }
    }
}

fn all_bytes(alloc: Global, frame: &ValidFrame) -> Result<Bytes, NoMemory>
    ensures bytes { IfOk result (λ bytes. bytes ≡ all_bytes (numbered frame.now)) }
    ensures count { IfOk result (λ bytes. length bytes ≡ length (numbered frame.now).units) }
    ensures good { IsValid (numbered frame.now) }
{
    let passes = frame.pass_count();
    let mut bytes = Bytes::new(alloc, frame)?;
    for pass in 0..passes {
        bytes.run(alloc, frame.shapes(), ops_of(frame, pass));
    }
    Ok(bytes)
}

/// What is left in each unit when the passes run in turn, as declared, and no two units share memory.
pub fn meaning(alloc: Global, frame: &ValidFrame) -> Result<Pictures, NoMemory>
    ensures pictures { IfOk result (λ pictures. pictures ≡ map (meaning (numbered frame.now)) (range_with_len 0 (length (numbered frame.now).units))) }
    // What is exported has contents.
    ensures exported { All (λ unit. is_some (meaning (numbered frame.now) unit) ≡ true) (numbered frame.now).exports }
{
    Ok(Pictures {
        bytes: all_bytes(alloc, frame)?,
        stored: stored(alloc, frame)?,
    })
}
