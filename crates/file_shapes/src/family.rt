//! The families of queues in a file.

ghost use Rattle.std.specs.Prelude.{⊤};
ghost use Rattle.base.specs.Families.{family_name};
ghost use Rattle.file_shapes.specs.Families.{family_of, family_again};

use base::Family;
use file_json::Word;

/// The words of families.
pub struct FamilyWord;

impl Word for FamilyWord {
    type Of = Family;

    ghost value_of = { family_of };

    ghost text_of = { family_name };

    ghost Fits = { λ _. ⊤ };

    ghost again = { family_again };

    fn value(text: &str) -> Option<Family> {
        if text == "graphics" {
            Some(Family::Graphics)
        } else if text == "compute" {
            Some(Family::Compute)
        } else if text == "transfer" {
            Some(Family::Transfer)
        } else {
            None
        }
    }

    fn text(family: &Family) -> &str {
        family.name()
    }
}
