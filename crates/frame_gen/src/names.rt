//! Names that end in a number.

ghost use Rattle.std.specs.Prelude.{◌≡◌, ◌∷◌, [], true};
ghost use Rattle.std.specs.Fmt.{decimal};
ghost use Rattle.base.specs.Names.{is_name_byte};
ghost use Rattle.frame_gen.specs.Generated.{resource_name, pass_name, spot};

use base::Name;
use frame::Spot;
use itoa::Buffer;

// A letter, and a number in decimal.
fn numbered(letter: u8, i: u32) -> Name
    requires { is_name_byte letter ≡ true }
    ensures { result ≡ letter ∷ decimal i }
{
    let mut buffer = Buffer::new();
    let digits = buffer.format(i).as_bytes();
    let mut bytes = [letter; 11];
    bytes[1..digits.len() + 1].copy_from_slice(digits);
    match Name::read(&bytes[..digits.len() + 1]) {
        Some(name) => name,
        None => unreachable!(),
    }
}

/// A name of one letter.
pub(crate) fn letter(letter: u8) -> Name
    requires { is_name_byte letter ≡ true }
    ensures { result ≡ letter ∷ [] }
{
    match Name::read(&[letter]) {
        Some(name) => name,
        None => unreachable!(),
    }
}

pub(crate) fn pass_name(i: u32) -> Name
    ensures { result ≡ pass_name i }
{
    numbered(b'p', i)
}

pub(crate) fn resource_name(i: u32) -> Name
    ensures { result ≡ resource_name i }
{
    numbered(b'r', i)
}

/// Resource `i`, where it is read, written or exported.
pub(crate) fn spot(i: u32) -> Spot
    ensures { result ≡ spot i }
{
    Spot {
        name: resource_name(i),
        layer: None,
    }
}
