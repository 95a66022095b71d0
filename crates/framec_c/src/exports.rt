//! The functions that C calls. `include/framec.h` declares them. Each answers the status with which the program would end, and
//! tells in `wanted` how many bytes its text has; where the text is longer than `output`, `output` is left as it was.

ghost use Rattle.std.specs.Prelude.{false};
ghost use Rattle.cli.specs.declared.command.Command.{Command};
ghost use Rattle.cli.specs.declared.command.FrameCommand.{FrameCommand};
ghost use Rattle.cli.specs.declared.command.SubmissionCommand.{SubmissionCommand};
ghost use Rattle.cli.specs.declared.form.Form.{Form};
ghost use Rattle.framec_c.specs.Calls.{Gives};

use crate::call::call;
use crate::export::Export;
use std::alloc::Global;

/// Whether a submission is sound, or its first hazard.
#[unsafe(no_mangle)]
pub extern "C" fn framec_check(
    alloc: Global,
    input: &[u8],
    output: &mut [u8],
    wanted: &mut u64,
) -> i32
    ensures gives { Gives (Command.Submission (SubmissionCommand.Check Form.Line)) input.now output.old output.new wanted.new result }
{
    call(alloc, Export::Check, input, output, wanted)
}

/// Which passes of a frame are culled.
#[unsafe(no_mangle)]
pub extern "C" fn framec_cull(
    alloc: Global,
    input: &[u8],
    output: &mut [u8],
    wanted: &mut u64,
) -> i32
    ensures gives { Gives (Command.Frame (FrameCommand.Cull Form.Line)) input.now output.old output.new wanted.new result }
{
    call(alloc, Export::Cull, input, output, wanted)
}

/// Where the transient resources of a frame lie in shared memory.
#[unsafe(no_mangle)]
pub extern "C" fn framec_place(
    alloc: Global,
    input: &[u8],
    output: &mut [u8],
    wanted: &mut u64,
) -> i32
    ensures gives { Gives (Command.Frame (FrameCommand.Place Form.Line)) input.now output.old output.new wanted.new result }
{
    call(alloc, Export::Place, input, output, wanted)
}

/// How many bytes the memory that the transient resources of a frame share has at least.
#[unsafe(no_mangle)]
pub extern "C" fn framec_bound(
    alloc: Global,
    input: &[u8],
    output: &mut [u8],
    wanted: &mut u64,
) -> i32
    ensures gives { Gives (Command.Frame (FrameCommand.Bound Form.Line)) input.now output.old output.new wanted.new result }
{
    call(alloc, Export::Bound, input, output, wanted)
}

/// The submissions that the kept passes of a frame need.
#[unsafe(no_mangle)]
pub extern "C" fn framec_compile(
    alloc: Global,
    input: &[u8],
    output: &mut [u8],
    wanted: &mut u64,
) -> i32
    ensures gives { Gives (Command.Frame (FrameCommand.Compile false)) input.now output.old output.new wanted.new result }
{
    call(alloc, Export::Compile, input, output, wanted)
}

/// A frame with its passes on other queues, pass by pass each on one with which the whole frame costs least.
#[unsafe(no_mangle)]
pub extern "C" fn framec_auto(
    alloc: Global,
    input: &[u8],
    output: &mut [u8],
    wanted: &mut u64,
) -> i32
    ensures gives { Gives (Command.Frame FrameCommand.Auto) input.now output.old output.new wanted.new result }
{
    call(alloc, Export::Auto, input, output, wanted)
}

/// The exports of a frame, with the bytes that they have after all passes in turn.
#[unsafe(no_mangle)]
pub extern "C" fn framec_meaning(
    alloc: Global,
    input: &[u8],
    output: &mut [u8],
    wanted: &mut u64,
) -> i32
    ensures gives { Gives (Command.Frame FrameCommand.Meaning) input.now output.old output.new wanted.new result }
{
    call(alloc, Export::Meaning, input, output, wanted)
}

/// The canonical text of a frame.
#[unsafe(no_mangle)]
pub extern "C" fn framec_migrate(
    alloc: Global,
    input: &[u8],
    output: &mut [u8],
    wanted: &mut u64,
) -> i32
    ensures gives { Gives (Command.Frame FrameCommand.Migrate) input.now output.old output.new wanted.new result }
{
    call(alloc, Export::Migrate, input, output, wanted)
}
