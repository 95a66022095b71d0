//! Laws of what is recorded.

ghost use Rattle.std.specs.Prelude.{◌<◌, List, Bool, length};
ghost use Rattle.frame.specs.Valid.{IsValid};
ghost use Rattle.frame.specs.Numbered.{NumberedFrame};
ghost use Rattle.compile_groups.specs.Groups.{grouping};
ghost use Rattle.compile_record.specs.Marks.{steps_of};
ghost use Rattle.compile_record.specs.Script.{script};
ghost use Rattle.compile_record.specs.Standing.{IsStanding};
ghost use Rattle.compile_timeline.specs.Steps.{IsScript};
ghost use Rattle.compile_barriers.specs.Under.{Heap};

use compile_groups::group_laws;

/// What is recorded of a valid frame can be cut into queues: each need is for an earlier item of another queue. Each command, prologue
/// and release stands once, in the order of the commands beside it, with what it needs before it. And a step is told by 32 bits.
/// It does nothing.
pub fn script_laws()
    ensures in_turn { (frame : NumberedFrame) (kept : List Bool) (heap : Heap) → IsValid frame → IsScript (steps_of (script (grouping frame kept) heap)) (length frame.queues) }
    ensures standing { (frame : NumberedFrame) (kept : List Bool) (heap : Heap) → IsStanding (grouping frame kept) heap }
    ensures few { (frame : NumberedFrame) (kept : List Bool) (heap : Heap) → IsValid frame → length (script (grouping frame kept) heap) < 4294967296 }
{
    group_laws();
}
