//! The passes that are kept.

ghost use Rattle.std.specs.Prelude.{◌≡◌, ◌<◌, length, false, slice_index_or};
ghost use Rattle.std.specs.List.{count_by};

use base::List;
use std::marker::Model;

/// Which passes are kept. The others are culled: nothing that is seen outside the frame needs them.
#[derive(Drop)]
pub struct Kept {
    passes: List<bool>,
}

impl Model for Kept {
    ghost use Rattle.std.specs.Prelude.{List, Bool};

    ghost Value = { List Bool };

    ghost view = { λ k. k.passes };
}

impl Kept {
    /// For each pass whether it is kept.
    pub(crate) fn new(passes: List<bool>) -> Kept
        ensures { result ≡ passes }
    {
        Kept { passes }
    }

    pub fn contains(&self, pass: u32) -> bool
        requires { pass < length self.now }
        ensures { result ≡ slice_index_or self.now pass false }
    {
        self.passes[pass as usize]
    }

    /// How many passes are kept.
    pub fn count(&self) -> usize
        ensures { result ≡ count_by (λ kept. kept) self.now }
    {
        self.passes.iter().filter(|kept| **kept).count()
    }
}
