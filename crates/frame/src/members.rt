//! The members of operations.

ghost use Rattle.std.specs.Prelude.{◌≡◌, [], ◌∷◌, slice_index_or};
ghost use Rattle.frame.specs.Members.{member_at};
ghost use Rattle.frame.specs.declared.location.Operand.TheVariants.{Src, A, B, Dst};

use crate::location::Operand;
use base::Op;

fn source_or_dst(j: usize) -> Operand
    ensures { result ≡ slice_index_or (Src ∷ []) j Dst }
{
    if j == 0 { Operand::Src } else { Operand::Dst }
}

fn two_sources(j: usize) -> Operand
    ensures { result ≡ slice_index_or (A ∷ B ∷ []) j Dst }
{
    if j == 0 {
        Operand::A
    } else if j == 1 {
        Operand::B
    } else {
        Operand::Dst
    }
}

/// The member that holds operand `j`.
pub(crate) fn member_at<R: Copy>(op: &Op<R>, j: usize) -> Operand
    ensures { result ≡ member_at op.now j }
{
    match op {
        Op::FillBuffer { .. } | Op::ClearImage { .. } | Op::Ramp { .. } | Op::Draw { .. } => {
            Operand::Dst
        }
        Op::CopyBuffer { .. } | Op::CopyImage { .. } | Op::BufferToImage { .. } => source_or_dst(j),
        Op::ImageToBuffer { .. } | Op::Map { .. } | Op::Convert { .. } => source_or_dst(j),
        Op::Box3 { .. } | Op::Halve { .. } | Op::Histogram { .. } => source_or_dst(j),
        Op::Combine { .. } => two_sources(j),
        Op::Select { .. } => {
            if j == 0 {
                Operand::Mask
            } else {
                two_sources(j - 1)
            }
        }
    }
}
