//! Laws of groups.

ghost use Rattle.std.specs.Prelude.{List, Bool};
ghost use Rattle.frame.specs.Valid.{IsValid};
ghost use Rattle.frame.specs.Numbered.{NumberedFrame};
ghost use Rattle.compile_groups.specs.Groups.{grouping};
ghost use Rattle.compile_groups.specs.Laws.{IsGrouped, IsKnown, IsSmall};

/// What holds of the groups of every frame, for the proofs of other crates. It does nothing.
pub fn group_laws()
    ensures grouped { (frame : NumberedFrame) (kept : List Bool) → IsGrouped (grouping frame kept) }
    ensures known { (frame : NumberedFrame) (kept : List Bool) → IsValid frame → IsKnown (grouping frame kept) }
    ensures small { (frame : NumberedFrame) (kept : List Bool) → IsValid frame → IsSmall (grouping frame kept) }
{}
