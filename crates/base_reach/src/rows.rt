//! Pairs of numbers, as rows of bits.

ghost use Rattle.std.specs.Prelude.{◌≡◌, ◌<◌, ◌↔◌, ◌||◌, ◌==◌, ◌&&◌, IfOk, ℕ, length, true, false, get_or};
ghost use Rattle.std.specs.List.{All};
ghost use Rattle.base_reach.specs.Pairs.{has, links};
ghost use Rattle.base_reach.specs.Paths.{Path};

use crate::bits::{has_bit, set_bit};
use crate::close::close_words;
use base::NoMemory;
use std::alloc::Global;
use std::marker::Model;

/// A set of pairs of numbers below a count, in which the first number of each pair is the smaller one. It has one bit
/// for each two numbers, so its memory grows with the square of the count, and one row for `close` to work in.
#[derive(Debug, Drop)]
pub struct Rows {
    count: usize,
    // Words in a row.
    width: usize,
    words: Vec<u64>,
    scratch: Vec<u64>,
}

impl Model for Rows {
    ghost use Rattle.base_reach.specs.Pairs.{Pairs};
    ghost use Rattle.base_reach.specs.Internal.Fields.{view_of, IsKept};

    ghost Value = { Pairs };

    ghost view = { view_of };

    ghost invariant = { IsKept };
}

fn zeros(alloc: Global, count: usize) -> Result<Vec<u64>, NoMemory>
    ensures length { IfOk result (λ words. length words.items ≡ count) }
    ensures zeros { IfOk result (λ words. (k : ℕ) → get_or words.items k 0 ≡ 0) }
{
    Ok(vec![in alloc; 0; count]?)
}

impl Rows {
    /// No pair of numbers below `count`.
    pub fn empty(alloc: Global, count: u32) -> Result<Rows, NoMemory>
        ensures count { IfOk result (λ rows. rows.count ≡ count) }
        ensures has { IfOk result (λ rows. (a b : ℕ) → has rows a b ≡ false) }
    {
        let count = count as usize;
        let width = (count + 63) / 64;
        Ok(Rows {
            count,
            width,
            words: zeros(alloc, count * width)?,
            scratch: zeros(alloc, width)?,
        })
    }

    /// Adds a pair.
    pub fn set(&mut self, a: u32, b: u32)
        requires order { a < b }
        requires below { b < self.old.count }
        ensures count { self.new.count ≡ self.old.count }
        ensures has { (x y : ℕ) → has self.new x y ≡ (((x == a) && (y == b)) || has self.old x y) }
    {
        set_bit(&mut self.words, a as usize * self.width * 64 + b as usize);
    }

    /// Leaves exactly the pairs that a path of old pairs joins.
    pub fn close(&mut self)
        ensures count { self.new.count ≡ self.old.count }
        ensures has { (a b : ℕ) → (has self.new a b ≡ true) ↔ Path (λ x y. has self.old x y) a b }
    {
        close_words(&mut self.words, &mut self.scratch, self.width, self.count);
    }

    fn of_edges(alloc: Global, count: u32, edges: &[(u32, u32)]) -> Result<Rows, NoMemory>
        requires ahead { All (λ e. (e.0 < e.1) × (e.1 < count)) edges.now }
        ensures count { IfOk result (λ rows. rows.count ≡ count) }
        ensures has { IfOk result (λ rows. (a b : ℕ) → has rows a b ≡ links edges.now a b) }
    {
        let mut rows = Rows::empty(alloc, count)?;
        for edge in edges {
            rows.set(edge.0, edge.1);
        }
        Ok(rows)
    }

    /// The pairs of numbers below `count` that a path of edges joins.
    pub fn closure(alloc: Global, count: u32, edges: &[(u32, u32)]) -> Result<Rows, NoMemory>
        requires ahead { All (λ e. (e.0 < e.1) × (e.1 < count)) edges.now }
        ensures count { IfOk result (λ rows. rows.count ≡ count) }
        ensures has { IfOk result (λ rows. (a b : ℕ) → (has rows a b ≡ true) ↔ Path (links edges.now) a b) }
    {
        let mut rows = Rows::of_edges(alloc, count, edges)?;
        rows.close();
        Ok(rows)
    }

    /// Whether the pair is in the set. After `closure` that is whether a path of at least one edge leads from `a` to `b`.
    #[inline(always)]
    pub fn has(&self, a: u32, b: u32) -> bool
        requires a { a < self.now.count }
        requires b { b < self.now.count }
        ensures { result ≡ has self.now a b }
    {
        has_bit(&self.words, a as usize * self.width * 64 + b as usize)
    }
}
