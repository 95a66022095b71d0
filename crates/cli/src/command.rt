//! The commands.

use crate::form::Form;
use base::{List, Name, RunOptions};

/// A command that the program has, by what it reads and what it needs.
#[derive(Debug, Drop)]
pub enum Command {
    /// A command that reads a frame and needs no device.
    Frame(FrameCommand),
    /// A command that reads a submission and needs no device.
    Submission(SubmissionCommand),
    /// Prints the frame of 1 to 256 passes that a number gives. It reads nothing.
    Gen {
        number: u32,
        passes: u32,
    },
    /// Runs a frame on a device, and prints what it exports.
    Run {
        options: RunOptions,
        /// The events of the device are printed too.
        trace: bool,
        /// Waits, and stages of waits, that its submissions do not need are left out.
        tight: bool,
    },
    /// Runs a submission on a device, and prints what the host reads.
    Exec {
        options: RunOptions,
        /// The events of the device are printed too.
        trace: bool,
    },
    /// Runs the frame that a number gives on a device, and prints what it comes to in numbers. It reads nothing.
    Summary {
        number: u32,
        passes: u32,
        options: RunOptions,
    },
    /// Runs several frames on devices, so many of them compiled together, and prints what they export.
    Flight {
        options: RunOptions,
        /// The names under which bytes persist from one frame to the next.
        persist: List<Name>,
        /// How many frames are compiled together at most, 1 to 8.
        depth: u32,
    },
    /// Reads a submission and a trace, and prints whether the trace is a run of it.
    Audit,
}

/// What is done with a frame.
#[derive(Clone, Copy, Debug, PartialEq, Eq)]
pub enum FrameCommand {
    /// Prints which of its passes are culled.
    Cull {
        form: Form,
    },
    /// Prints where its transient resources lie in shared memory.
    Place {
        form: Form,
    },
    /// Prints how many bytes the memory that its transient resources share has at least, and what shows it.
    Bound {
        form: Form,
    },
    /// Prints the submissions that it needs.
    Compile {
        /// Waits, and stages of waits, that these do not need are left out.
        tight: bool,
    },
    /// Moves its passes to other queues where that makes its longest chain of work shorter, and prints it so.
    Auto,
    /// Prints what its longest chain of work costs as given, and as `Auto` chooses.
    Cost {
        form: Form,
    },
    /// Prints its exports from its sequential meaning.
    Meaning,
    /// Prints its canonical text.
    Migrate,
}

/// What is done with a submission.
#[derive(Clone, Copy, Debug, PartialEq, Eq)]
pub enum SubmissionCommand {
    /// Prints whether it is sound, or its first hazard.
    Check { form: Form },
}
