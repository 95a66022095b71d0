//! Words of channels.

ghost use Rattle.std.specs.Prelude.{◌≡◌, ◌≢◌, ◌<◌, ℕ, true};
ghost use Rattle.base_first.specs.Bits.{bit};

/// The set with one more number in it.
pub fn with(set: u64, c: usize) -> u64
    requires c { c < 64 }
    ensures own { bit result c ≡ true }
    ensures others { (d : ℕ) → d ≢ c → bit result d ≡ bit set d }
{
    set | 1 << c
}
