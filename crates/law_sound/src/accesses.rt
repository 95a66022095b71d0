//! Laws of the accesses of compiled programs.

ghost use Rattle.law_sound.specs.Laws.{OfCompiled};
ghost use Rattle.law_sound.specs.Served.{ServeEarlier};
ghost use Rattle.law_plan.specs.Masks.{Masks};
ghost use Rattle.law_plan.specs.Spots.{Spots};

use compile_groups::group_laws;
use compile_record::script_laws;
use compile_timeline::timeline_laws;
use law_schedule::cut_laws;

/// Each access of a compiled program is of a group: of its prologue, a member, its release or its host read (`spots`). On one queue
/// the masks of barriers serve the accesses of the groups round them (`masks`), and alias barriers those of the units that had
/// the bytes before (`aliases`). It does nothing.
pub fn accesses_law()
    ensures spots { OfCompiled Spots }
    ensures masks { OfCompiled Masks }
    ensures aliases { OfCompiled ServeEarlier }
{
    group_laws();
    script_laws();
    cut_laws();
    timeline_laws();
}
