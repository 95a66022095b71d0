//! Laws of the states in which compiled programs leave units.

ghost use Rattle.law_sound.specs.Laws.{OfCompiled};
ghost use Rattle.law_plan.specs.States.{Laid, Owned, Handed};

use compile_groups::group_laws;
use compile_record::script_laws;
use compile_timeline::timeline_laws;
use law_schedule::cut_laws;

/// The layout of each group is the one that its members want, and prologues set it (`laid`). Nodes of a group are on queues of its
/// family (`owned`), and each change of the family is handed over (`handed`). It does nothing.
pub fn states_law()
    ensures laid { OfCompiled Laid }
    ensures owned { OfCompiled Owned }
    ensures handed { OfCompiled Handed }
{
    group_laws();
    script_laws();
    cut_laws();
    timeline_laws();
}
