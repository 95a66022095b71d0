//! Keys of members, as a fault prints them.

ghost use Rattle.std.specs.Prelude.{◌≡◌, ◌++◌, OnOk, map};
ghost use Rattle.report.specs.Paths.{printed};

use base::{NoMemory, Text};

fn printed(byte: u8) -> u8
    ensures { result ≡ printed byte }
{
    if (b' '..=b'~').contains(&byte) {
        byte
    } else {
        b'?'
    }
}

/// Adds a key. It may have any bytes, and a line is to be one line of ASCII.
pub(crate) fn add_key(text: &mut Text, key: &[u8]) -> Result<(), NoMemory>
    ensures { OnOk result (text.new ≡ text.old ++ map printed key.now) }
{
    for byte in key {
        text.push(printed(*byte))?;
    }
    Ok(())
}
