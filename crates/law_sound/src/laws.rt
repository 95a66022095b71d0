//! Laws of compiled programs.

ghost use Rattle.law_sound.specs.Laws.{OfCompiled, IsGrouped, AreOrdered, HaveBarriers, ComeBefore, AreUnreleased, ImportsAreAlone, IsSoundWith};
ghost use Rattle.law_plan.specs.Nodes.{Places, Roles};

use check_access::view_law;
use check_access_order::order_laws;
use compile_groups::group_laws;
use compile_record::script_laws;
use law_nodes::node_laws;
use law_plan::crossing_laws;
use law_schedule::cut_laws;
use law_valid::faultless_law;

/// Of each program that is compiled of a valid frame: the groups of its plan stand by their pieces (`grouped`). Commands, prologues,
/// releases and host reads are what they are called (`roles`), and a prologue comes after the commands before it and before its
/// own, with a release between where the family changes (`placed`). It does nothing.
pub fn places_law()
    ensures grouped { OfCompiled IsGrouped }
    ensures roles { OfCompiled Roles }
    ensures placed { OfCompiled Places }
{
    group_laws();
    script_laws();
    cut_laws();
}

/// Of each program that is compiled of a valid frame: two units in the same bytes are ordered (`ordered`). Between them stands an
/// alias barrier (`barriers`), which comes after what uses the earlier one (`before`), and that is not handed on after its last
/// group (`kept`). In the bytes of an import lies nothing else (`imports`). It does nothing.
pub fn aliases_law()
    ensures ordered { OfCompiled AreOrdered }
    ensures barriers { OfCompiled HaveBarriers }
    ensures before { OfCompiled ComeBefore }
    ensures kept { OfCompiled AreUnreleased }
    ensures imports { OfCompiled ImportsAreAlone }
{
    group_laws();
    script_laws();
    cut_laws();
    crossing_laws();
    places_law();
}

/// A program that is compiled of a valid frame is sound, with what is asked of its accesses, masks and states beside: it has no
/// fault, so its view is shaped, and its nodes have a least order. It does nothing.
pub fn sound_law()
    ensures { OfCompiled IsSoundWith }
{
    script_laws();
    cut_laws();
    crossing_laws();
    places_law();
    aliases_law();
    faultless_law();
    view_law();
    order_laws();
    node_laws();
}
