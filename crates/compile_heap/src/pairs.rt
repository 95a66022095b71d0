//! A set of pairs of numbers.

ghost use Rattle.std.specs.Prelude.{◌≡◌, ◌<◌, ◌==◌, ◌&&◌, ◌||◌, ℕ, false, IfOk};
ghost use Rattle.compile_heap.specs.Pairs.{has};
ghost use Rattle.compile_heap.specs.Placing.{may_alias};

use base::{List, NoMemory};
use std::alloc::Global;
use std::marker::Model;

/// A set of pairs of numbers below a count. It has a place for each two numbers, so its memory grows with the square
/// of the count.
#[derive(Debug, Drop)]
pub struct Pairs {
    count: usize,
    pairs: List<bool>,
}

impl Model for Pairs {
    ghost use Rattle.std.specs.Prelude.{◌≡◌, ◌<◌, ◌*◌, ◌^◌, length};
    ghost use Rattle.compile_heap.specs.Pairs.{Table};

    ghost Value = { Table };

    ghost view = { λ p. record { count = p.count; pairs = p.pairs } };

    ghost invariant = { λ p. (p.count < 2 ^ 32) × (length p.pairs ≡ p.count * p.count) };
}

impl Pairs {
    /// No pair of numbers below `count`.
    pub fn new(alloc: Global, count: u32) -> Result<Pairs, NoMemory>
        ensures count { IfOk result (λ pairs. pairs.count ≡ count) }
        ensures has { IfOk result (λ pairs. (a b : ℕ) → has pairs a b ≡ false) }
    {
        let count = count as usize;
        let pairs = List::from_vec(vec![in alloc; false; count * count]?);
        Ok(Pairs { count, pairs })
    }

    /// How many numbers there are.
    pub fn count(&self) -> u32
        ensures { result ≡ self.now.count }
    {
        self.count as u32
    }

    /// Adds a pair.
    pub fn set(&mut self, a: u32, b: u32)
        requires a { a < self.old.count }
        requires b { b < self.old.count }
        ensures count { self.new.count ≡ self.old.count }
        ensures has { (x y : ℕ) → x < self.old.count → y < self.old.count → has self.new x y ≡ (((x == a) && (y == b)) || has self.old x y) }
    {
        self.pairs.set(a as usize * self.count + b as usize, true);
    }

    /// Whether the pair is in the set.
    pub fn has(&self, a: u32, b: u32) -> bool
        requires a { a < self.now.count }
        requires b { b < self.now.count }
        ensures { result ≡ has self.now a b }
    {
        self.has_at(a as usize, b as usize)
    }

    fn has_at(&self, a: usize, b: usize) -> bool
        requires a { a < self.now.count }
        requires b { b < self.now.count }
        ensures { result ≡ has self.now a b }
    {
        self.pairs[a * self.count + b]
    }

    /// Whether the set has the pair or the turned one.
    pub(crate) fn may_alias(&self, a: usize, b: usize) -> bool
        requires a { a < self.now.count }
        requires b { b < self.now.count }
        ensures { result ≡ may_alias (has self.now) a b }
    {
        self.has_at(a, b) || self.has_at(b, a)
    }
}
