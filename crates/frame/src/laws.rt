//! What holds of every frame, for the proofs of other crates.

ghost use Rattle.std.specs.Prelude.{◌≡◌, None};
ghost use Rattle.frame.specs.FirstFault.{first_fault, name_broken};
ghost use Rattle.frame.specs.Valid.{IsDeclared, IsValid};
ghost use Rattle.frame.specs.Numbered.{numbered};
ghost use Rattle.frame.specs.declared.frame.Frame.{Frame};

/// What a frame without a fault declares; and whoever makes a frame out of another one, or from nothing, has to show three
/// things of it and no rule by itself: its limits, its names, and that its numbered frame is good (`faultless`). It does nothing.
#[tactic(auto, using(crate::proofs::Necessary::declared_by_law, crate::proofs::Sufficient::no_fault))]
pub fn frame_laws()
    ensures declared { (frame : Frame) → first_fault frame ≡ None → IsDeclared frame }
    ensures faultless { (frame : Frame) → name_broken frame ≡ None → IsValid (numbered frame) → first_fault frame ≡ None }
{}
