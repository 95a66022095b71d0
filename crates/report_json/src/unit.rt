//! Units by their names.

ghost use Rattle.std.specs.Prelude.{◌≡◌, ◌<◌, ◌++◌, OnOk, codes, length};
ghost use Rattle.frame.specs.Numbered.{numbered};
ghost use Rattle.report.specs.UnitNames.{spot_text, unit_text};
ghost use Rattle.report_json.specs.Json.{member, string};

use crate::object::next_member;
use base::{NoMemory, Text};
use base_text::Lines;
use frame::{Spot, ValidFrame};

// The name, and after a stroke the layer where there is one.
fn add_spot(text: &mut Text, spot: &Spot) -> Result<(), NoMemory>
    ensures { OnOk result (text.new ≡ text.old ++ spot_text spot.now) }
{
    text.word(spot.name.as_bytes())?;
    match spot.layer {
        Some(layer) => {
            text.word(b"/")?;
            text.number(u64::from(layer))
        }
        None => Ok(()),
    }
}

/// Adds the name of a unit of a frame, as a string.
#[tactic(auto, unfolding(crate::specs::Json::string))]
pub(crate) fn add_unit(text: &mut Text, frame: &ValidFrame, unit: u32) -> Result<(), NoMemory>
    requires { unit < length (numbered frame.now).units }
    ensures { OnOk result (text.new ≡ text.old ++ string (unit_text frame.now unit)) }
{
    text.word(b"\"")?;
    add_spot(text, &frame.unit_name(unit))?;
    text.word(b"\"")
}

/// Adds a later member, which is the name of a unit.
#[tactic(auto, unfolding(crate::specs::Json::member))]
pub(crate) fn next_unit(text: &mut Text, frame: &ValidFrame, unit: u32) -> Result<(), NoMemory>
    requires { unit < length (numbered frame.now).units }
    ensures { OnOk result (text.new ≡ text.old ++ codes "," ++ member (codes "unit") (string (unit_text frame.now unit))) }
{
    next_member(text, b"unit")?;
    add_unit(text, frame, unit)
}
