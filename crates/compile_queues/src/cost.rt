//! What a frame costs with its passes on given queues.

ghost use Rattle.std.specs.Prelude.{◌≡◌, ◌<◌, length, IfOk};
ghost use Rattle.std.specs.List.{All};
ghost use Rattle.compile_queues.specs.Internal.Work.{IsWork};
ghost use Rattle.compile_queues.specs.Cost.{IsFrameCost};
ghost use Rattle.compile_queues.specs.Queues.{on_queues};
ghost use Rattle.frame.specs.Numbered.{numbered};

use crate::owners::command_queues;
use crate::spans::spans_of;
use crate::sums::{greatest, sums_of};
use crate::work::Work;
use base::NoMemory;
use frame::ValidFrame;
use std::alloc::Global;

/// The cost of the frame with its passes on these queues.
pub(crate) fn cost_on(
    alloc: Global,
    frame: &ValidFrame,
    work: &Work,
    queues: &[u32],
) -> Result<u64, NoMemory>
    requires work { IsWork (numbered frame.now) work.now }
    requires count { length queues.now ≡ length (numbered frame.now).passes }
    requires below { All (λ q. q < length (numbered frame.now).queues) queues.now }
    ensures { IfOk result (IsFrameCost (on_queues queues.now (numbered frame.now))) }
{
    let _good = frame.frame();
    let queues = command_queues(alloc, &work.owners, queues)?;
    let spans = spans_of(alloc, &work.families, &work.sharings, &queues, &work.uses)?;
    let sums = sums_of(alloc, work, &queues, &spans)?;
    Ok(greatest(&sums))
}
