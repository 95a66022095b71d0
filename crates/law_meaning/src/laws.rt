//! Laws of frames and what they are compiled to.

ghost use Rattle.std.specs.Prelude.{◌≡◌, ℕ, Bool, List, length, None};
ghost use Rattle.check_program.specs.Sound.{IsSound};
ghost use Rattle.law_meaning.specs.Declared.{ops_in, declared_ops, InDeclaredOrder};
ghost use Rattle.law_meaning.specs.Laws.{AreAsLong, OrdersAgree, KeptSuffice, ReadsMeaning, IsReadMeant};
ghost use Rattle.frame.specs.Valid.{IsValid};
ghost use Rattle.frame.specs.Numbered.{NumberedFrame};
ghost use Rattle.compile_groups.specs.Groups.{grouping};
ghost use Rattle.compile_record.specs.Recorded.{IsCompiled, OfRecorded};
ghost use Rattle.compile_record.specs.declared.compiled.Compiled.{Compiled};
ghost use Rattle.program.specs.FirstFault.{first_fault};
ghost use Rattle.program.specs.declared.program.Program.{Program};
ghost use Rattle.frame_cull.specs.Culled.{AreKept};

use compile_groups::group_laws;
use device_model::{device_laws, event_laws, round_laws};
use kernel::whole_leaves_nothing_old;

/// What a compiled program does is what its frame means. In any two orders that the nodes of a sound program may run in, the
/// host reads the same bytes. Passes that are not kept may be left out: each exported unit comes to the same bytes. After all
/// passes each unit has as many bytes as its shape. A compiled program has a read-back for each export, and the host reads what
/// the frame means: in an order that has the commands as they were declared, and so, where the program is sound and there is
/// such an order, in every order. It does nothing.
pub fn meaning_laws()
    ensures agree { (program : Program) → first_fault program ≡ None → IsSound program → OrdersAgree program }
    ensures culled { (frame : NumberedFrame) (kept : List Bool) → IsValid frame → AreKept frame kept → KeptSuffice frame kept }
    ensures long { (frame : NumberedFrame) (kept : List Bool) → IsValid frame → AreKept frame kept → AreAsLong frame }
    ensures readbacks { (frame : NumberedFrame) (made : Compiled Program) → IsCompiled frame made → length made.program.readbacks ≡ length frame.exports }
    ensures declared { OfRecorded (λ frame made. (order : List ℕ) → ops_in made.program order ≡ declared_ops (grouping frame made.kept) → ReadsMeaning frame made.program order) }
    ensures means { OfRecorded (λ frame made. first_fault made.program ≡ None → IsSound made.program → (declared : List ℕ) → InDeclaredOrder frame made.kept made.program declared → IsReadMeant frame made.program) }
{
    device_laws();
    event_laws();
    round_laws();
    whole_leaves_nothing_old();
    group_laws();
}
