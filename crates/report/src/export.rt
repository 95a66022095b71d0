//! Exports with their bytes.

ghost use Rattle.std.specs.Prelude.{◌≡◌, ◌<◌, ◌++◌, OnOk, OnErr, length};
ghost use Rattle.frame.specs.Numbered.{numbered};
ghost use Rattle.base_text.specs.Starts.{Starts};
ghost use Rattle.report.specs.Exports.{export_lines, export_text};

use crate::unit::add_spot;
use base::{NoMemory, Text};
use base_text::{Lines, cut_back};
use frame::{Spot, ValidFrame};

// Where memory runs out, some of the lines may have been added.
#[tactic(auto, using(crate::proofs::Begun::begun, crate::proofs::Begun::begun_more))]
pub(crate) fn add_export(text: &mut Text, unit: &Spot, bytes: &[u8]) -> Result<(), NoMemory>
    ensures ok { OnOk result (text.new ≡ text.old ++ export_lines unit.now bytes.now) }
    ensures starts { Starts text.old text.new }
{
    text.word(b"export ")?;
    add_spot(text, unit)?;
    text.word(b" ")?;
    text.number(bytes.len() as u64)?;
    text.end_line()?;
    text.hex_lines(bytes)
}

/// Adds export number `k`: its unit, how many bytes it has, and the bytes. Where there is no memory for all of it, the
/// text is as before.
pub fn export_text(
    text: &mut Text,
    frame: &ValidFrame,
    k: u32,
    bytes: &[u8],
) -> Result<(), NoMemory>
    requires { k < length (numbered frame.now).exports }
    ensures ok { OnOk result (text.new ≡ text.old ++ export_text frame.now k bytes.now) }
    ensures err { OnErr result (text.new ≡ text.old) }
{
    let unit = frame.unit_name(frame.exports()[k as usize]);
    let before = text.len();
    if add_export(text, &unit, bytes).is_err() {
        cut_back(text, before);
        return Err(NoMemory);
    }
    Ok(())
}
