//! A program that was found sound.

ghost use Rattle.std.specs.Prelude.{◌≡◌};
ghost use Rattle.std.specs.Arc.{arc_value};
ghost use Rattle.check_program.specs.Sound.{IsSound};

use program::ValidProgram;
use std::alloc::Global;
use std::marker::Model;
use std::sync::Arc;

/// A sound program.
#[derive(Debug, Drop)]
pub struct Checked {
    shaped: Arc<ValidProgram, Global>,
}

impl Model for Checked {
    ghost use Rattle.check_program.specs.Checked.{Accepted};
    ghost use Rattle.check_program.specs.Internal.Inside.{accepted_in, IsAccepted};

    ghost Value = { Accepted };

    ghost view = { accepted_in };

    ghost invariant = { IsAccepted };
}

impl Checked {
    pub(crate) fn new(shaped: Arc<ValidProgram, Global>) -> Checked
        requires { IsSound (arc_value shaped) }
        ensures { result.program ≡ arc_value shaped }
    {
        Checked { shaped }
    }

    /// The program, which can be shared between threads.
    pub fn shaped(&self) -> &Arc<ValidProgram, Global>
        ensures program { arc_value result.now ≡ self.now.program }
        ensures sound { IsSound self.now.program }
    {
        &self.shaped
    }
}
