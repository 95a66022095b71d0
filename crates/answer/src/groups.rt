//! The groups of a frame, from which a command goes on.

ghost use Rattle.std.specs.Prelude.{IfOk};
ghost use Rattle.frame.specs.Numbered.{numbered};
ghost use Rattle.answer.specs.Internal.Stages.{AreGrouped};

use base::NoMemory;
use compile_groups::{Groups, groups_of};
use frame::ValidFrame;
use frame_cull::{cull, versions_of};
use std::alloc::Global;

/// The groups of the passes that are kept.
pub fn kept_groups(alloc: Global, good: &ValidFrame) -> Result<Groups, NoMemory>
    ensures { IfOk result (AreGrouped (numbered good.now)) }
{
    let versions = versions_of(alloc, good)?;
    let kept = cull(alloc, good, &versions)?;
    groups_of(alloc, good, &versions, &kept)
}
