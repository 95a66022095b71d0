//! Places in a file.

ghost use Rattle.std.specs.Prelude.{◌≡◌, ◌++◌, OnOk};
ghost use Rattle.report.specs.Paths.{leg_text, path_text};

use crate::key::add_key;
use base::{Leg, NoMemory, Text};
use base_text::Lines;

fn add_leg(text: &mut Text, leg: &Leg) -> Result<(), NoMemory>
    ensures { OnOk result (text.new ≡ text.old ++ leg_text leg.now) }
{
    match leg {
        Leg::Member(key) => {
            text.word(b".")?;
            add_key(text, key)
        }
        Leg::Position(at) => {
            text.word(b"[")?;
            text.number(u64::from(*at))?;
            text.word(b"]")
        }
    }
}

/// Adds the steps from the root, which is `$`, to a location.
pub(crate) fn add_path(text: &mut Text, location: &[Leg]) -> Result<(), NoMemory>
    ensures { OnOk result (text.new ≡ text.old ++ path_text location.now) }
{
    text.word(b"$")?;
    for leg in location {
        add_leg(text, leg)?;
    }
    Ok(())
}
