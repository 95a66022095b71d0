//! One operand of an operation.

ghost use Rattle.std.specs.Prelude.{◌≡◌, ◌<◌, length, slice_get, All, Some};
ghost use Rattle.base.specs.Operands.{operands_of, touches};
ghost use Rattle.base.specs.Shapes.{shape_at};
ghost use Rattle.base.specs.Touches.{touches_of, source_role, kernel_role, destination_role};

use crate::shape::shape_at;
use crate::whole::is_whole;
use crate::{Op, Role, Shape};

/// How an operation over numbers touches the resource with the number `what`.
#[derive(Clone, Copy, Debug, PartialEq, Eq)]
pub struct Touch {
    pub what: u32,
    pub role: Role,
    /// Whether it is a store that leaves no old byte. A source has none.
    pub whole: bool,
}

impl<R: Copy> Op<R> {
    /// As what it stores to its destination. A draw that does not clear loads it first.
    pub fn destination_role(&self) -> Role
        ensures { result ≡ destination_role self.now }
    {
        match self {
            Op::FillBuffer { .. } | Op::ClearImage { .. } => Role::ClearWrite,
            Op::CopyBuffer { .. } | Op::CopyImage { .. } => Role::CopyWrite,
            Op::BufferToImage { .. } | Op::ImageToBuffer { .. } => Role::CopyWrite,
            Op::Draw { clear, .. } => Role::Attachment {
                load: clear.is_none(),
            },
            _ => Role::StorageWrite,
        }
    }
}

impl Op<u32> {
    /// Whether the resource with the number `n` is one of its operands.
    pub fn touches(&self, n: u32) -> bool
        ensures { result ≡ touches n self.now }
    {
        for k in 0..self.touch_count() {
            if self.operand(k) == n {
                return true;
            }
        }
        false
    }

    /// How it touches its operand with the number `k`, where the operands have these shapes.
    pub fn touch(&self, k: u32, shapes: &[Shape]) -> Touch
        requires number { k < length (operands_of self.now) }
        requires shapes { All (λ r. r < length shapes.now) (operands_of self.now) }
        ensures { slice_get (touches_of shapes.now self.now) k ≡ Some result }
    {
        let what = self.operand(k);
        if k + 1 == self.touch_count() {
            return Touch {
                what,
                role: self.destination_role(),
                whole: is_whole(self, shapes),
            };
        }
        Touch {
            what,
            role: source_role(self, shape_at(shapes, what)),
            whole: false,
        }
    }
}

fn source_role(op: &Op<u32>, shape: Shape) -> Role
    ensures { result ≡ source_role op.now shape }
{
    match op {
        Op::CopyBuffer { .. } | Op::CopyImage { .. } => Role::CopyRead,
        Op::BufferToImage { .. } | Op::ImageToBuffer { .. } => Role::CopyRead,
        _ => kernel_role(shape),
    }
}

fn kernel_role(shape: Shape) -> Role
    ensures { result ≡ kernel_role shape }
{
    match shape {
        Shape::Buffer { .. } => Role::StorageRead,
        Shape::Image { .. } => Role::Sampled,
    }
}
