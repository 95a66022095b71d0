//! The frame.

ghost use Rattle.std.specs.Prelude.{◌≡◌, ◌≤◌, IfOk};
ghost use Rattle.frame_gen.specs.Generated.{generated};

use crate::exports::exports;
use crate::passes::passes;
use crate::resources::{queues, resources};
use base::NoMemory;
use frame::{Frame, ValidFrame, faultless, frame_laws};
use std::alloc::Global;

fn frame(alloc: Global, number: u32, count: u32) -> Result<Frame, NoMemory>
    ensures { IfOk result (λ frame. frame ≡ generated number count) }
{
    Ok(Frame {
        queues: queues(alloc)?,
        resources: resources(alloc, count)?,
        passes: passes(alloc, number, count)?,
        exports: exports(alloc, count)?,
    })
}

/// The frame of so many passes that a number gives. Each pass makes an image of 64 by 64 out of earlier ones.
pub fn generate(alloc: Global, number: u32, passes: u32) -> Result<ValidFrame, NoMemory>
    requires some { 1 ≤ passes }
    requires few { passes ≤ 256 }
    ensures { IfOk result (λ good. good ≡ generated number passes) }
{
    frame_laws();
    let frame = frame(alloc, number, passes)?;
    faultless(alloc, frame)
}
