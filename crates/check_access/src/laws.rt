//! A law of views.

ghost use Rattle.std.specs.Prelude.{◌≡◌, None};
ghost use Rattle.program.specs.FirstFault.{first_fault};
ghost use Rattle.program.specs.declared.program.Program.{Program};
ghost use Rattle.check_access.specs.ValidView.{ValidView};
ghost use Rattle.check_access.specs.Views.{view_of};

use program::rule_laws;

/// The view of a program without a fault is shaped. It does nothing.
pub fn view_law()
    ensures { (program : Program) → first_fault program ≡ None → ValidView (view_of program) }
{
    rule_laws();
}
