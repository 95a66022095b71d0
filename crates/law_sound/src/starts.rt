//! What kept commands do first, and what follows of their bytes.

ghost use Rattle.std.specs.Prelude.{List, Bool};
ghost use Rattle.law_sound.specs.Initialized.{IsInitialized};
ghost use Rattle.law_sound.specs.Starts.{AreStarted};
ghost use Rattle.frame.specs.Valid.{IsValid};
ghost use Rattle.frame.specs.Numbered.{NumberedFrame};
ghost use Rattle.compile_groups.specs.Groups.{grouping};
ghost use Rattle.frame_cull.specs.Culled.{AreKept};

/// Of the commands of a valid frame's kept passes and its exports the first that touches a unit, where that is no import, stores
/// all of it (`started`). So what a command loads of such a unit, an earlier one stored to (`initialized`). It does nothing.
pub fn starts_law()
    ensures started { (frame : NumberedFrame) (kept : List Bool) → IsValid frame → AreKept frame kept → AreStarted frame kept }
    ensures initialized { (frame : NumberedFrame) (kept : List Bool) → IsValid frame → AreKept frame kept → IsInitialized (grouping frame kept) }
{}
