//! A valid frame runs.

ghost use Rattle.std.specs.Prelude.{IfOk};
ghost use Rattle.frame.specs.Numbered.{numbered};
ghost use Rattle.device_run.specs.FrameRuns.{RunsOn};

use crate::programs::run_program;
use crate::ran::RanDevice;
use base::{NoMemory, RunOptions};
use base_io::Gate;
use compile_file::compiled;
use frame::ValidFrame;
use std::alloc::Global;
use std::sync::Wait;
use std::thread::Threads;

/// A device that has run what the frame is compiled to.
pub fn run_good<R: Threads + Wait + Sync, G: Gate + Sync>(
    rt: &R,
    alloc: Global,
    options: RunOptions,
    tight: bool,
    good: &ValidFrame,
    gate: &G,
) -> Result<RanDevice, NoMemory>
    ensures { IfOk result (RunsOn options.tend tight (numbered good.now)) }
{
    let made = compiled(alloc, good, tight)?;
    run_program(rt, alloc, &made.program, options, gate)
}
