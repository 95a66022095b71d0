//! Whether bytes are the same, compared many at a time.

ghost use Rattle.std.specs.Prelude.{◌≡◌, true};

use device_cache::Contents;

// Each byte is looked at, also after two that differ, so that it can be done for many at once.
fn same_bytes(a: &[u8], b: &[u8]) -> bool
    ensures { result ≡ true → a.now ≡ b.now }
{
    if a.len() != b.len() {
        return false;
    }
    let mut same = true;
    for k in 0..a.len() {
        same &= a[k] == b[k];
    }
    same
}

// Whether both are in one form, with the same bytes.
fn same_contents(a: &Contents, b: &Contents) -> bool
    ensures { result ≡ true → a.now ≡ b.now }
{
    if let (Some(one), Some(other)) = (a.word(), b.word()) {
        return one == other && a.len() == b.len();
    }
    if let (Some(one), Some(other)) = (a.as_slice(), b.as_slice()) {
        return same_bytes(one, other);
    }
    false
}

/// Whether all bytes are known to be the same, load by load.
pub(crate) fn same_loads(a: &[Contents], b: &[Contents]) -> bool
    ensures { result ≡ true → a.now ≡ b.now }
{
    if a.len() != b.len() {
        return false;
    }
    for k in 0..a.len() {
        if !same_contents(&a[k], &b[k]) {
            return false;
        }
    }
    true
}
