//! Names in a window.

ghost use Rattle.std.specs.Prelude.{◌≡◌, ◌∷◌, ◌+◌, ◌<◌, ◌≤◌, length, true};
ghost use Rattle.base.specs.Names.{is_name};
ghost use Rattle.law_window.specs.Names.{join_name, numbered_name};

use base::Name;
use itoa::Buffer;

// The digit of a frame, a point, and these bytes.
fn dotted(i: usize, rest: &[u8]) -> Name
    requires digit { i < 10 }
    requires short { length rest.now ≤ 20 }
    requires name { is_name ((48 + i) ∷ 46 ∷ rest.now) ≡ true }
    ensures { result ≡ (48 + i) ∷ 46 ∷ rest.now }
{
    let mut bytes = [b'.'; 32];
    bytes[0] = b'0' + i as u8;
    bytes[2..rest.len() + 2].copy_from_slice(rest);
    match Name::read(&bytes[..rest.len() + 2]) {
        Some(name) => name,
        None => unreachable!(),
    }
}

/// The name of resource or pass `j` of frame `i`.
pub(crate) fn numbered_name(i: usize, j: usize) -> Name
    requires { i < 10 }
    ensures { result ≡ numbered_name i j }
{
    let mut buffer = Buffer::new();
    dotted(i, buffer.format(j).as_bytes())
}

/// The name of the join pass of frame `i`.
pub(crate) fn join_name(i: usize) -> Name
    requires { i < 10 }
    ensures { result ≡ join_name i }
{
    dotted(i, b"join")
}
