//! Single bits of a list of words.

ghost use Rattle.std.specs.Prelude.{◌≡◌, ◌<◌, ◌||◌, ◌*◌, ◌==◌, ℕ, length};
ghost use Rattle.base_reach.specs.Bits.{bit};

#[inline(always)]
pub(crate) fn has_bit(words: &[u64], place: usize) -> bool
    requires within { place < 64 * length words.now }
    ensures { result ≡ bit words.now place }
{
    words[place / 64] >> (place % 64) & 1 == 1
}

#[inline(always)]
fn set_in(words: &mut [u64], place: usize)
    requires within { place < 64 * length words.old }
    ensures length { length words.new ≡ length words.old }
    ensures bits { (b : ℕ) → b < 64 * length words.old → bit words.new b ≡ ((b == place) || bit words.old b) }
{
    words[place / 64] |= 1 << (place % 64);
}

#[inline(always)]
pub(crate) fn set_bit(words: &mut Vec<u64>, place: usize)
    requires within { place < 64 * length words.old.items }
    ensures length { length words.new.items ≡ length words.old.items }
    ensures bits { (b : ℕ) → b < 64 * length words.old.items → bit words.new.items b ≡ ((b == place) || bit words.old.items b) }
{
    set_in(words, place);
}
