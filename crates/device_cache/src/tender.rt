//! Random moves of cache lines.

ghost use Rattle.std.specs.Prelude.{◌≡◌, ◌<◌, ◌^◌, length, slice_index_or, IfSome, ◌↔◌, IsSome, if◌then◌else◌, true};
ghost use Rattle.device_cache.specs.Draws.{seeded, word, later, words_of, after_five, filled, may_draw, kind_of, move_of, drawn, Moves};

use crate::words::Words;
use base::{CacheMove, MemoryRange, MoveKind};
use rand_core::utils::NextWord;
use rand_pcg::Pcg32;
use std::marker::Model;

/// As many moves as a run with a seed makes.
pub const MOVES: u32 = 256;

// As many bytes as a move has at most.
const LONGEST: u32 = 4096;

/// Draws moves of cache lines at random. Contracts see its generator.
#[derive(Drop)]
pub struct Tender {
    generator: Pcg32,
}

impl Model for Tender {
    ghost use Rattle.rand_pcg.specs.Lcg.{Lcg};

    ghost Value = { Lcg };

    ghost view = { λ t. t.generator };
}

impl Tender {
    /// The same seed gives the same moves.
    pub fn new(seed: u64) -> Tender
        ensures { result ≡ seeded seed }
    {
        Tender {
            generator: Pcg32::new(seed, 0),
        }
    }

    /// The next move, by five words. None, and no word is taken, where there is no agent or no memory has a byte.
    pub fn next(&mut self, agents: u32, sizes: &[u32]) -> Option<CacheMove>
        requires few { length sizes.now < 2 ^ 32 }
        ensures some { IsSome result ↔ (may_draw agents sizes.now ≡ true) }
        ensures drawn { IfSome result (λ m. m ≡ drawn agents sizes.now self.old) }
        ensures inside { IfSome result (λ m. Moves agents sizes.now m) }
        ensures after { self.new ≡ (if may_draw agents sizes.now then after_five self.old else self.old) }
    {
        if !can_draw(agents, sizes) {
            return None;
        }
        let words = self.words();
        Some(made(agents, sizes, words))
    }

    fn words(&mut self) -> Words
        ensures words { result ≡ words_of self.old }
        ensures after { self.new ≡ after_five self.old }
    {
        let kind = self.word();
        let agent = self.word();
        let memory = self.word();
        let start = self.word();
        let len = self.word();
        Words {
            kind,
            agent,
            memory,
            start,
            len,
        }
    }

    fn word(&mut self) -> u32
        ensures word { result ≡ word self.old }
        ensures later { self.new ≡ later self.old }
    {
        self.generator.next_word()
    }
}

// There is an agent, and a memory has a byte.
fn can_draw(agents: u32, sizes: &[u32]) -> bool
    requires { length sizes.now < 2 ^ 32 }
    ensures { result ≡ may_draw agents sizes.now }
{
    agents > 0 && filled_count(sizes) > 0
}

// The move of five words.
fn made(agents: u32, sizes: &[u32], words: Words) -> CacheMove
    requires few { length sizes.now < 2 ^ 32 }
    requires can { may_draw agents sizes.now ≡ true }
    ensures { result ≡ move_of agents sizes.now words }
{
    let (memory, size) = filled_at(sizes, words.memory % filled_count(sizes));
    let start = words.start % size;
    let len = 1 + words.len % (size - start).min(LONGEST);
    CacheMove {
        kind: kind_of(words.kind),
        agent: words.agent % agents,
        range: MemoryRange { memory, start, len },
    }
}

fn kind_of(word: u32) -> MoveKind
    ensures { result ≡ kind_of word }
{
    match word % 3 {
        0 => MoveKind::WriteBack,
        1 => MoveKind::Fill,
        _ => MoveKind::DropLine,
    }
}

// How many memories have a byte.
fn filled_count(sizes: &[u32]) -> u32
    requires { length sizes.now < 2 ^ 32 }
    ensures { result ≡ length (filled sizes.now) }
{
    sizes.iter().enumerate().filter(|p| *p.1 > 0).count() as u32
}

// The k-th memory that has a byte, with its size.
fn filled_at(sizes: &[u32], k: u32) -> (u32, u32)
    requires few { length sizes.now < 2 ^ 32 }
    requires there { k < length (filled sizes.now) }
    ensures at { result ≡ slice_index_or (filled sizes.now) k (0, 1) }
    ensures some { 0 < result.1 }
{
    let mut rest = sizes;
    let mut left = k;
    for i in 0..sizes.len() as u32 {
        let Some((size, others)) = rest.split_first() else {
            break;
        };
        if *size > 0 {
            if left == 0 {
                return (i, *size);
            }
            left -= 1;
        }
        rest = others;
    }
    unreachable!()
}
