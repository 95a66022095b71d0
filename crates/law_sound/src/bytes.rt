//! Laws of the bytes of compiled programs.

ghost use Rattle.law_sound.specs.Initialized.{OfInitialized};
ghost use Rattle.law_sound.specs.Laws.{HasSoundOrder};
ghost use Rattle.law_plan.specs.States.{Changed};

use crate::accesses::accesses_law;
use crate::laws::{aliases_law, sound_law};
use crate::states::states_law;
use compile_groups::group_laws;
use compile_record::script_laws;
use compile_timeline::timeline_laws;
use law_schedule::cut_laws;

/// Where commands load what others stored before them: which groups store is known, what loads from no import loads what an
/// earlier group of its unit stored, and imports are let alone (`changed`). So the program is sound (`sound`). It does nothing.
pub fn bytes_law()
    ensures changed { OfInitialized Changed }
    ensures sound { OfInitialized HasSoundOrder }
{
    group_laws();
    script_laws();
    cut_laws();
    timeline_laws();
    aliases_law();
    accesses_law();
    states_law();
    sound_law();
}
