//! Names of queues, resources and passes.

ghost use Rattle.std.specs.Prelude.{◌≡◌, ◌≤◌, length, take, IsTrue};
ghost use Rattle.std.proofs.Common.{rules};
ghost use Rattle.std.specs.Cmp.Rules.{comparing, hashing};
ghost use Rattle.std.specs.Hash as fed;
ghost use Rattle.std.specs.List.{list_all};
ghost use Rattle.std.specs.Str.{bytes_eq};
ghost use Rattle.base.specs.Names.{is_name, is_name_byte, name_of, padded_name};

use std::hash::{Hash, Hasher};
use std::marker::Model;
use std::str;

/// A name of at most 32 bytes, at least one, each an ASCII letter or digit or one of `_-.`. A clause sees the list of its bytes.
#[derive(Clone, Copy, Debug)]
pub struct Name {
    bytes: [u8; 32],
    len: usize,
}

// The bytes after the name are zeros, so the fields follow from the name.
impl Model for Name {
    ghost use Rattle.std.specs.Prelude.{◌≡◌, List, ℕ, take, length};
    ghost use Rattle.base.specs.Names.{IsName, padded_name, padded_inverse};

    ghost Value = { List ℕ };

    ghost view = { λ n. take n.len n.bytes };

    ghost invariant = { λ n. IsName (take n.len n.bytes) × (n.len ≡ length (take n.len n.bytes)) × (n.bytes ≡ padded_name (take n.len n.bytes)) };

    ghost inverse = { λ v. record { bytes = padded_name v; len = length v } };

    ghost inverse_ok = { λ a h. padded_inverse a.bytes a.len h.1 h.2 };
}

impl Name {
    /// The name that the bytes are, if they are one.
    pub fn read(bytes: &[u8]) -> Option<Name>
        ensures { result ≡ name_of bytes.now }
    {
        if !is_name(bytes) {
            return None;
        }
        Some(Name {
            bytes: padded(bytes),
            len: bytes.len(),
        })
    }

    pub fn as_bytes(&self) -> &[u8]
        ensures bytes { result.now ≡ self.now }
        ensures name { IsTrue (is_name self.now) }
    {
        &self.bytes[..self.len]
    }

    pub fn as_str(&self) -> &str
        ensures text { result.now ≡ self.now }
        ensures name { IsTrue (is_name self.now) }
    {
        match str::from_utf8(self.as_bytes()) {
            Ok(text) => text,
            Err(_) => unreachable!(),
        }
    }
}

impl PartialEq for Name {
    ghost eq = { bytes_eq };

    ghost laws = { Prim.search (comparing, rules) };

    fn eq(&self, other: &Name) -> bool {
        self.as_bytes() == other.as_bytes()
    }
}

impl Eq for Name {
    ghost laws = { Prim.search (comparing, rules) };
}

impl Hash for Name {
    ghost hash_input = { fed.slice fed.u8 };

    ghost respects_eq = { Prim.search (hashing, rules) };

    fn hash<H: Hasher>(&self, state: &mut H) {
        self.as_bytes().hash(state);
    }
}

fn is_name(bytes: &[u8]) -> bool
    ensures { result ≡ is_name bytes.now }
{
    if bytes.is_empty() || bytes.len() > 32 {
        return false;
    }
    has_name_bytes(bytes)
}

fn has_name_bytes(bytes: &[u8]) -> bool
    ensures { result ≡ list_all is_name_byte bytes.now }
{
    bytes.iter().all(|byte| is_name_byte(*byte))
}

fn is_name_byte(byte: u8) -> bool
    ensures { result ≡ is_name_byte byte }
{
    byte.is_ascii_alphanumeric() || byte == b'_' || byte == b'-' || byte == b'.'
}

fn padded(bytes: &[u8]) -> [u8; 32]
    requires { length bytes.now ≤ 32 }
    ensures { result ≡ padded_name bytes.now }
{
    let mut kept = [0u8; 32];
    kept[..bytes.len()].copy_from_slice(bytes);
    kept
}
