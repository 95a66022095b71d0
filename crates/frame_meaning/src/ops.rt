//! The operations of a pass.

ghost use Rattle.std.specs.Prelude.{◌≡◌, ◌<◌, length, IfSome, slice_get};
ghost use Rattle.std.specs.List.{All};
ghost use Rattle.base.specs.Operands.{operands_of};
ghost use Rattle.frame.specs.Valid.{IsValid, shapes_in};
ghost use Rattle.frame.specs.Numbered.{numbered};
ghost use Rattle.frame_meaning.specs.Internal.Held.{ops_at};
ghost use Rattle.frame_meaning.specs.Internal.Sizes.{IsRunnable};

use base::Op;
use frame::ValidFrame;

/// The operations of a pass, which fit their units.
pub(crate) fn ops_of(frame: &ValidFrame, pass: u32) -> &[Op<u32>]
    requires { pass < length (numbered frame.now).passes }
    ensures ops { IfSome (slice_get (numbered frame.now).passes pass) (λ p. result.now ≡ p.ops) }
    ensures at { result.now ≡ ops_at (numbered frame.now).passes pass }
    ensures within { All (λ op. All (λ unit. unit < length (numbered frame.now).units) (operands_of op)) result.now }
    ensures good { IsValid (numbered frame.now) }
    ensures runnable { All (IsRunnable (shapes_in (numbered frame.now))) result.now }
{
    frame.ops(pass)
}
