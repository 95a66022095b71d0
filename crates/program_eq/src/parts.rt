//! Parts of programs without lists.

ghost use Rattle.std.specs.Prelude.{◌≡◌, ◌↔◌, IsTrue};

use crate::Same;
use base::Rect;
use program::{Piece, Transfer, WaitFor};
use vk::Masks;

impl Same for Rect {
    fn same(&self, other: &Rect) -> bool {
        *self == *other
    }
}

impl Same for Piece {
    fn same(&self, other: &Piece) -> bool {
        *self == *other
    }
}

impl Same for WaitFor {
    fn same(&self, other: &WaitFor) -> bool {
        *self == *other
    }
}

impl Same for Masks {
    fn same(&self, other: &Masks) -> bool {
        *self == *other
    }
}

// Whether two halves of transfers are of the same piece, families and layouts.
fn same_handover(a: &Transfer, b: &Transfer) -> bool
    ensures { IsTrue result ↔ ((a.now.piece ≡ b.now.piece) × ((a.now.from_family ≡ b.now.from_family) × ((a.now.to_family ≡ b.now.to_family) × (a.now.layouts ≡ b.now.layouts)))) }
{
    a.piece == b.piece
        && a.from_family == b.from_family
        && a.to_family == b.to_family
        && a.layouts == b.layouts
}

impl Same for Transfer {
    fn same(&self, other: &Transfer) -> bool {
        same_handover(self, other) && self.masks.same(&other.masks)
    }
}
