//! Bytes as hexadecimal digits.

ghost use Rattle.std.specs.Prelude.{◌≡◌, ◌≤◌, ◌*◌, ◌++◌, OnOk, OnErr, length};
ghost use Rattle.hex.specs.Hex.{encode_lower};
ghost use Rattle.base_text.specs.HexLines.{hex_line, hex_lines};
ghost use Rattle.base_text.specs.Starts.{Starts};

use base::{NoMemory, Text};

fn put_digits(digits: &mut [u8], bytes: &[u8])
    requires { length digits.old ≡ 2 * length bytes.now }
    ensures { digits.new ≡ encode_lower bytes.now }
{
    if hex::encode_to_slice(bytes, digits).is_err() {
        unreachable!();
    }
}

// A line of at most 32 bytes.
fn hex_line(text: &mut Text, bytes: &[u8]) -> Result<(), NoMemory>
    requires { length bytes.now ≤ 32 }
    ensures ok { OnOk result (text.new ≡ text.old ++ hex_line bytes.now) }
    ensures err { OnErr result (text.new ≡ text.old) }
{
    let mut line = [b'\n'; 65];
    let line = &mut line[..2 * bytes.len() + 1];
    let (digits, _line_feed) = line.split_at_mut(2 * bytes.len());
    put_digits(digits, bytes);
    text.extend_from_slice(line)
}

/// The lines of all bytes, or as many of them as there is memory for.
pub(crate) fn add_lines(text: &mut Text, bytes: &[u8]) -> Result<(), NoMemory>
    ensures ok { OnOk result (text.new ≡ text.old ++ hex_lines bytes.now) }
    ensures err { OnErr result (Starts text.old text.new) }
{
    for i in 0..bytes.len().div_ceil(32) {
        let rest = &bytes[32 * i..];
        hex_line(text, &rest[..rest.len().min(32)])?;
    }
    Ok(())
}
