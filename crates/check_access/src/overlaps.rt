//! Which pieces have bytes in common.

ghost use Rattle.std.specs.Prelude.{◌≡◌, ◌≤◌, length, map, IfOk};
ghost use Rattle.base.specs.Maxima.{max_pieces};
ghost use Rattle.check_access.specs.Views.{is_before_end, pieces_overlap, overlapping_in};

use base::{List, NoMemory};
use program::Piece;
use std::alloc::Global;

// Whether `a` begins before `b` ends, in bytes of one memory.
fn is_before_end(a: Piece, b: Piece) -> bool
    ensures { result ≡ is_before_end a b }
{
    (a.offset as u128) < b.offset as u128 + b.shape.bytes()
}

/// Whether they have bytes of a memory in common.
pub(crate) fn pieces_overlap(a: Piece, b: Piece) -> bool
    ensures { result ≡ pieces_overlap a b }
{
    a.memory == b.memory && is_before_end(a, b) && is_before_end(b, a)
}

// The numbers of the pieces that overlap this one.
fn list_of(alloc: Global, pieces: &[Piece], a: Piece) -> Result<List<u32>, NoMemory>
    requires { length pieces.now ≤ max_pieces }
    ensures { IfOk result (λ numbers. numbers ≡ overlapping_in pieces.now a) }
{
    let mut numbers = List::new(alloc);
    for q in 0..pieces.len() {
        if pieces_overlap(a, pieces[q]) {
            numbers.push(q as u32)?;
        }
    }
    Ok(numbers)
}

/// For each piece the numbers of those that overlap it.
pub(crate) fn lists_of(alloc: Global, pieces: &[Piece]) -> Result<List<List<u32>>, NoMemory>
    requires { length pieces.now ≤ max_pieces }
    ensures { IfOk result (λ lists. lists ≡ map (overlapping_in pieces.now) pieces.now) }
{
    let mut lists = List::new(alloc);
    for piece in pieces {
        let numbers = list_of(alloc, pieces, *piece)?;
        lists.push(numbers)?;
    }
    Ok(lists)
}
