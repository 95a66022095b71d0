//! Objects at the end of a text, without spaces.

ghost use Rattle.std.specs.Prelude.{◌≡◌, [], ◌∷◌, ◌++◌, OnOk, codes};
ghost use Rattle.std.specs.List.{flat_map};
ghost use Rattle.hex.specs.Hex.{encode_lower};
ghost use Rattle.report_json.specs.Json.{comma, escaped, member, number, string, truth};

use base::{NoMemory, Text};
use base_text::Lines;

/// Adds a string whose bytes need no escape.
#[tactic(auto, unfolding(crate::specs::Json::string))]
pub(crate) fn add_string(text: &mut Text, bytes: &[u8]) -> Result<(), NoMemory>
    ensures { OnOk result (text.new ≡ text.old ++ string bytes.now) }
{
    text.word(b"\"")?;
    text.word(bytes)?;
    text.word(b"\"")
}

// The two hexadecimal digits of a byte.
fn digits_of(byte: u8) -> [u8; 2]
    ensures { result ≡ encode_lower (byte ∷ []) }
{
    let mut digits = [0u8; 2];
    if hex::encode_to_slice(&[byte], &mut digits).is_err() {
        unreachable!();
    }
    digits
}

/// Adds a byte of a string.
pub(crate) fn add_escaped(text: &mut Text, byte: u8) -> Result<(), NoMemory>
    ensures { OnOk result (text.new ≡ text.old ++ escaped byte) }
{
    if byte == b'"' || byte == b'\\' {
        text.push(b'\\')?;
        return text.push(byte);
    }
    if byte < b' ' {
        text.word(b"\\u00")?;
        return text.word(&digits_of(byte));
    }
    text.push(byte)
}

/// Adds what a string of any bytes has between its quotation marks.
pub fn add_text(text: &mut Text, bytes: &[u8]) -> Result<(), NoMemory>
    ensures { OnOk result (text.new ≡ text.old ++ flat_map escaped bytes.now) }
{
    for byte in bytes {
        add_escaped(text, *byte)?;
    }
    Ok(())
}

fn truth(value: bool) -> &'static [u8]
    ensures { result.now ≡ truth value }
{
    if value { b"true" } else { b"false" }
}

/// Adds a comma, but before the first entry of a list.
pub fn add_comma(text: &mut Text, entry: usize) -> Result<(), NoMemory>
    ensures { OnOk result (text.new ≡ text.old ++ comma entry) }
{
    if entry == 0 {
        return Ok(());
    }
    text.word(b",")
}

/// Opens an object by the name of its first member.
pub fn first_member(text: &mut Text, name: &[u8]) -> Result<(), NoMemory>
    ensures { OnOk result (text.new ≡ text.old ++ codes "{" ++ string name.now ++ codes ":") }
{
    text.word(b"{")?;
    add_string(text, name)?;
    text.word(b":")
}

/// Adds the name of a later member.
pub fn next_member(text: &mut Text, name: &[u8]) -> Result<(), NoMemory>
    ensures { OnOk result (text.new ≡ text.old ++ codes "," ++ string name.now ++ codes ":") }
{
    text.word(b",")?;
    add_string(text, name)?;
    text.word(b":")
}

/// Opens an object by its first member, which is a number.
#[tactic(auto, unfolding(crate::specs::Json::member))]
pub(crate) fn first_number(text: &mut Text, name: &[u8], value: u64) -> Result<(), NoMemory>
    ensures { OnOk result (text.new ≡ text.old ++ codes "{" ++ member name.now (number value)) }
{
    first_member(text, name)?;
    text.number(value)
}

/// Opens an object by its first member, which is a string.
#[tactic(auto, unfolding(crate::specs::Json::member))]
pub(crate) fn first_string(text: &mut Text, name: &[u8], value: &[u8]) -> Result<(), NoMemory>
    ensures { OnOk result (text.new ≡ text.old ++ codes "{" ++ member name.now (string value.now)) }
{
    first_member(text, name)?;
    add_string(text, value)
}

/// Adds a later member, which is a number.
#[tactic(auto, unfolding(crate::specs::Json::member))]
pub fn next_number(text: &mut Text, name: &[u8], value: u64) -> Result<(), NoMemory>
    ensures { OnOk result (text.new ≡ text.old ++ codes "," ++ member name.now (number value)) }
{
    next_member(text, name)?;
    text.number(value)
}

/// Adds a later member, which is a string.
#[tactic(auto, unfolding(crate::specs::Json::member))]
pub(crate) fn next_string(text: &mut Text, name: &[u8], value: &[u8]) -> Result<(), NoMemory>
    ensures { OnOk result (text.new ≡ text.old ++ codes "," ++ member name.now (string value.now)) }
{
    next_member(text, name)?;
    add_string(text, value)
}

/// Adds a later member, which is a truth value.
#[tactic(auto, unfolding(crate::specs::Json::member))]
pub(crate) fn next_truth(text: &mut Text, name: &[u8], value: bool) -> Result<(), NoMemory>
    ensures { OnOk result (text.new ≡ text.old ++ codes "," ++ member name.now (truth value)) }
{
    next_member(text, name)?;
    text.word(truth(value))
}

/// Ends the one object of a text, and its line.
pub fn end_object(text: &mut Text) -> Result<(), NoMemory>
    ensures { OnOk result (text.new ≡ text.old ++ codes "}" ++ codes "\n") }
{
    text.word(b"}")?;
    text.end_line()
}
