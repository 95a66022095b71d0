//! Units by their names.

ghost use Rattle.std.specs.Prelude.{◌≡◌, ◌<◌, ◌++◌, OnOk, length};
ghost use Rattle.frame.specs.Numbered.{numbered};
ghost use Rattle.base_text.specs.Starts.{Starts};
ghost use Rattle.report.specs.UnitNames.{spot_text, unit_text};

use base::{NoMemory, Text};
use base_text::Lines;
use frame::{Spot, ValidFrame};

/// Adds the name of a unit, and after a stroke its layer where it is one of several.
#[tactic(auto, using(crate::proofs::Begun::begun, crate::proofs::Begun::begun_more))]
pub(crate) fn add_spot(text: &mut Text, spot: &Spot) -> Result<(), NoMemory>
    ensures ok { OnOk result (text.new ≡ text.old ++ spot_text spot.now) }
    ensures starts { Starts text.old text.new }
{
    text.word(spot.name.as_bytes())?;
    match spot.layer {
        Some(layer) => {
            text.word(b"/")?;
            text.number(u64::from(layer))
        }
        None => Ok(()),
    }
}

/// Adds the name of a unit of a frame.
pub(crate) fn add_unit(text: &mut Text, frame: &ValidFrame, unit: u32) -> Result<(), NoMemory>
    requires { unit < length (numbered frame.now).units }
    ensures { OnOk result (text.new ≡ text.old ++ unit_text frame.now unit) }
{
    add_spot(text, &frame.unit_name(unit))
}
