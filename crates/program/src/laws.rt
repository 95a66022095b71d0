//! Laws of programs.

ghost use Rattle.std.specs.Prelude.{◌≡◌, None};
ghost use Rattle.std.specs.List.{All};
ghost use Rattle.program.specs.Entries.{entries_of};
ghost use Rattle.program.specs.FirstFault.{first_fault};
ghost use Rattle.program.specs.Obeys.{EntryObeys, IsSmall, Obeys};
ghost use Rattle.program.specs.declared.program.Program.{Program};
ghost use Rattle.program.specs.declared.rule.Rule.{Rule};

/// A program without a fault goes over no limit, and each part of it obeys each rule, as does each entry (`entries`). `small`
/// leaves out the limit on rectangles; `obeys` says nothing of limits, which are not on parts.
pub fn rule_laws()
    ensures small { (program : Program) → first_fault program ≡ None → IsSmall program }
    ensures obeys { (program : Program) → first_fault program ≡ None → (rule : Rule) → Obeys rule program }
    ensures entries { (program : Program) → first_fault program ≡ None → (rule : Rule) → All (EntryObeys rule program) (entries_of program) }
{}
