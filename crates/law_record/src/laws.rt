//! What a compiled program is, sentence by sentence.

ghost use Rattle.compile_record.specs.Recorded.{OfRecorded};
ghost use Rattle.law_record.specs.Begun.{AreBegun};
ghost use Rattle.law_record.specs.Carried.{AreCarried};
ghost use Rattle.law_record.specs.Needed.{AreNeeded};
ghost use Rattle.law_record.specs.Rising.{AreRising};
ghost use Rattle.law_record.specs.Signalled.{AreSignalled};

use compile_groups::group_laws;
use compile_record::script_laws;
use compile_timeline::timeline_laws;

/// Of a program that is compiled of a valid frame. It carries the frame's commands queue by queue in their order, over its
/// pieces, memories and read-backs (`carries`). Each barrier, release, acquire and wait stands where it is wanted, and nowhere
/// else (`needed`). A queue's waits for one other queue rise (`rising`). Signals count from 1 and stand after nodes that are
/// waited for, or last (`signalled`). Batches begin after a signal or before waits that follow an item, and nowhere else
/// (`begun`). It does nothing.
pub fn recorded_laws()
    ensures carries { OfRecorded AreCarried }
    ensures needed { OfRecorded AreNeeded }
    ensures rising { OfRecorded AreRising }
    ensures signalled { OfRecorded AreSignalled }
    ensures begun { OfRecorded AreBegun }
{
    group_laws();
    script_laws();
    timeline_laws();
}
