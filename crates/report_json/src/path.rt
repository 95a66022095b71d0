//! Places in a file.

ghost use Rattle.std.specs.Prelude.{◌≡◌, ◌++◌, OnOk};
ghost use Rattle.std.specs.List.{flat_map};
ghost use Rattle.report.specs.Paths.{printed};
ghost use Rattle.report_json.specs.Faults.{escaped_key, leg_at, leg_json, path_json};
ghost use Rattle.report_json.specs.Json.{entries};

use crate::object::{add_comma, add_escaped};
use base::{Leg, NoMemory, Text};
use base_text::Lines;

fn printed(byte: u8) -> u8
    ensures { result ≡ printed byte }
{
    if (b' '..=b'~').contains(&byte) {
        byte
    } else {
        b'?'
    }
}

// A key may have any bytes, and a string is to be ASCII.
fn add_key(text: &mut Text, key: &[u8]) -> Result<(), NoMemory>
    ensures { OnOk result (text.new ≡ text.old ++ flat_map escaped_key key.now) }
{
    for byte in key {
        add_escaped(text, printed(*byte))?;
    }
    Ok(())
}

#[tactic(auto, unfolding(crate::specs::Json::string))]
fn add_leg(text: &mut Text, leg: &Leg) -> Result<(), NoMemory>
    ensures { OnOk result (text.new ≡ text.old ++ leg_json leg.now) }
{
    match leg {
        Leg::Member(key) => {
            text.word(b"\"")?;
            add_key(text, key)?;
            text.word(b"\"")
        }
        Leg::Position(at) => text.number(u64::from(*at)),
    }
}

#[tactic(auto, using(crate::proofs::Entries::one_more))]
fn add_legs(text: &mut Text, location: &[Leg]) -> Result<(), NoMemory>
    ensures { OnOk result (text.new ≡ text.old ++ entries leg_at 0 location.now) }
{
    for (k, leg) in location.iter().enumerate() {
        add_comma(text, k)?;
        add_leg(text, leg)?;
    }
    Ok(())
}

/// Adds the steps from the root to a location, as a list of keys and positions.
pub(crate) fn add_path(text: &mut Text, location: &[Leg]) -> Result<(), NoMemory>
    ensures { OnOk result (text.new ≡ text.old ++ path_json location.now) }
{
    text.word(b"[")?;
    add_legs(text, location)?;
    text.word(b"]")
}
