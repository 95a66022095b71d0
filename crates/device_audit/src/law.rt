//! Laws of traces.

ghost use Rattle.device_audit.specs.Again.{HistoriesAreRead, ReadsAgain, TendedAreRead};
ghost use Rattle.device_audit.specs.Runs.{HistoriesAreRuns};

/// A trace of at most 65,536 events that is printed is read again, to the same events. It does nothing.
pub fn trace_law()
    ensures { ReadsAgain }
{}

/// The history of a device that was opened with zeros and has run to its end is a run of its program, and what is printed of it
/// is read again. It does nothing.
pub fn run_law()
    ensures run { HistoriesAreRuns }
    ensures read { HistoriesAreRead }
    ensures tended { TendedAreRead }
{}
