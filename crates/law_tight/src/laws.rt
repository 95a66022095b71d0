//! What a program reads back does not depend on which waits keep it sound.

ghost use Rattle.std.specs.Prelude.{◌≡◌, ℕ, Bool, List, None};
ghost use Rattle.check_program.specs.Sound.{IsSound};
ghost use Rattle.law_meaning.specs.DeclaredLaws.{HasDeclaredOrder};
ghost use Rattle.law_meaning.specs.Laws.{IsReadMeant};
ghost use Rattle.frame.specs.Numbered.{NumberedFrame};
ghost use Rattle.check_order.specs.Orders.{Order};
ghost use Rattle.program.specs.FirstFault.{first_fault};
ghost use Rattle.program.specs.declared.program.Program.{Program};
ghost use Rattle.check_access.specs.Views.{view_of};
ghost use Rattle.law_tight.specs.Laws.{entries_but_waits, CanFollow, ReadsAlike};
ghost use Rattle.check_tighten.specs.Standing.{StandsTo};

use law_meaning::meaning_laws;

/// A program that stands to a given one by leaving out waits, and stages of waits, has its other nodes (`nodes`), and can run in
/// each order in which the given one can, with the same bytes read back (`follows`). Where it is sound, it reads back the same
/// bytes in every order (`reads`); so where the given program is sound and reads back what a frame means, it does too (`means`).
/// Where some order of the given program has the commands as a frame declares them, so has one of it (`in_order`). It does
/// nothing.
pub fn wait_laws()
    ensures nodes { (given program : Program) → StandsTo given program → entries_but_waits program ≡ entries_but_waits given }
    ensures follows { (given program : Program) → StandsTo given program → (order : List ℕ) → Order (view_of given).nodes order → CanFollow given program order }
    ensures reads { (given program : Program) → StandsTo given program → first_fault program ≡ None → IsSound program → ReadsAlike given program }
    ensures means { (frame : NumberedFrame) (given program : Program) → StandsTo given program → IsSound given → first_fault program ≡ None → IsSound program → IsReadMeant frame given → IsReadMeant frame program }
    ensures in_order { (frame : NumberedFrame) (kept : List Bool) (given program : Program) → StandsTo given program → HasDeclaredOrder frame kept given → HasDeclaredOrder frame kept program }
{
    meaning_laws();
}
