//! Where calls go.

ghost use Rattle.std.specs.Prelude.{◌≤◌, ◌+◌};
ghost use Rattle.measure.specs.Internal.Tables.{image};

use rand_core::utils::NextWord;
use rand_pcg::Pcg32;

/// As many bytes as an image of 1920 by 1080 texels of four bytes has.
pub const IMAGE: u32 = 8_294_400;

/// Random ranges end at so many places.
pub const PLACES: u32 = 512;

/// Bytes of the image.
#[derive(Clone, Copy, Debug)]
pub struct Range {
    pub start: u32,
    pub len: u32,
}

/// Ranges one after another.
#[derive(Drop)]
pub struct Ranges {
    // None where each is the whole image.
    draws: Option<Pcg32>,
}

/// The k-th place. The odd number is 2^32 by the golden ratio, which spreads places over the image.
pub fn place(k: u32) -> u32
    ensures { result ≤ image }
{
    k.wrapping_mul(2_654_435_769) % IMAGE
}

impl Ranges {
    /// The whole image again and again, or what lies between two places that are drawn at random.
    pub fn new(random: bool) -> Ranges {
        Ranges {
            draws: if random { Some(Pcg32::new(1, 0)) } else { None },
        }
    }

    pub fn next(&mut self) -> Range
        ensures { result.start + result.len ≤ image }
    {
        let Some(draws) = &mut self.draws else {
            return Range {
                start: 0,
                len: IMAGE,
            };
        };
        let one = place(draws.next_word() % PLACES);
        let other = place(draws.next_word() % PLACES);
        between(one.min(other), one.max(other))
    }
}

fn between(start: u32, end: u32) -> Range
    requires order { start ≤ end }
    requires within { end ≤ image }
    ensures { result.start + result.len ≤ image }
{
    Range {
        start,
        len: end - start,
    }
}
