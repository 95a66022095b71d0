//! The laws of tight programs.

ghost use Rattle.std.specs.Prelude.{◌≡◌};
ghost use Rattle.program.specs.declared.program.Program.{Program};
ghost use Rattle.check_tighten.specs.Tight.{OwnStagesDo};
ghost use Rattle.check_tighten.specs.Tightened.{IsTightened};

/// The rounds come to one program (`one`): each trial is decided by whether the program passes, and the first round that changes
/// nothing is the last. A program that passes does so with the own stages of any of its waits alone (`own`): what else a mask
/// stands for holds back nothing that runs on its queue. It does nothing.
pub fn tighten_law()
    ensures one { (given left other : Program) → IsTightened given left → IsTightened given other → left ≡ other }
    ensures own { OwnStagesDo }
{}
