//! Read-backs with their bytes.

ghost use Rattle.std.specs.Prelude.{◌≡◌, ◌++◌, OnOk, OnErr};
ghost use Rattle.base_text.specs.Starts.{Starts};
ghost use Rattle.report.specs.Readbacks.{readback_text};

use base::{NoMemory, Text};
use base_text::{Lines, cut_back};

// Where memory runs out, some of the lines may have been added.
#[tactic(auto, using(crate::proofs::Begun::begun, crate::proofs::Begun::begun_more))]
fn add_readback(text: &mut Text, k: u32, bytes: &[u8]) -> Result<(), NoMemory>
    ensures ok { OnOk result (text.new ≡ text.old ++ readback_text k bytes.now) }
    ensures starts { Starts text.old text.new }
{
    text.word(b"readback ")?;
    text.number(u64::from(k))?;
    text.word(b" ")?;
    text.number(bytes.len() as u64)?;
    text.end_line()?;
    text.hex_lines(bytes)
}

/// Adds read-back number `k`: how many bytes it has, and the bytes. Where there is no memory for all of it, the text is as
/// before.
pub fn readback_text(text: &mut Text, k: u32, bytes: &[u8]) -> Result<(), NoMemory>
    ensures ok { OnOk result (text.new ≡ text.old ++ readback_text k bytes.now) }
    ensures err { OnErr result (text.new ≡ text.old) }
{
    let before = text.len();
    if add_readback(text, k, bytes).is_err() {
        cut_back(text, before);
        return Err(NoMemory);
    }
    Ok(())
}
