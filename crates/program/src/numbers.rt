//! Numbers name something that is there.

ghost use Rattle.std.specs.Prelude.{◌≡◌};
ghost use Rattle.program.specs.Numbers.{has_piece, item_known};

use crate::Item;
use crate::range::has_operands;
use base::Shape;

pub(crate) fn has_piece(shapes: &[Shape], number: u32) -> bool
    ensures { result ≡ has_piece shapes.now number }
{
    (number as usize) < shapes.len()
}

pub(crate) fn item_known(shapes: &[Shape], item: &Item) -> bool
    ensures { result ≡ item_known shapes.now item.now }
{
    match item {
        Item::Command(op) => has_operands(shapes, op),
        Item::Global(_) => true,
        Item::BufferBarrier(piece, _) | Item::ImageBarrier(piece, _, _) => {
            has_piece(shapes, *piece)
        }
        Item::Release(transfer) | Item::Acquire(transfer) => has_piece(shapes, transfer.piece),
    }
}
