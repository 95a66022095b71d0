//! What holds of each program that is cut from steps.

ghost use Rattle.std.specs.Prelude.{ℕ, List};
ghost use Rattle.law_schedule.specs.Later.{AreSooner, AreCrossed};
ghost use Rattle.law_schedule.specs.Laws.{OfCut, OfScript, IsAllFull, IsLeveled, HasOrder, HasLeast, IsNeverStuck};
ghost use Rattle.law_schedule.specs.Levels.{AreSteps};
ghost use Rattle.law_schedule.specs.Opens.{AreOpen};
ghost use Rattle.law_schedule.specs.Standing.{AllStand, AreThese, ReadsAreLast};
ghost use Rattle.program.specs.declared.program.Program.{Program};
ghost use Rattle.compile_timeline.specs.declared.step.Step.{Step};

use compile_timeline::timeline_laws;
use law_plan::leveled_laws;

/// Of a program whose queues are cut from steps: each wait, item, signal and host read stands at its number (`stand`), there is
/// no other node (`all`), and host reads come last (`reads`). Signals and waits are of all commands (`full`), and commands and
/// barriers wait for those waits and are waited for by those signals (`opens`). On one queue an item stands after those of
/// earlier steps (`sooner`), and a signal and a wait lead to it from each item that its queue needs (`crossed`). No edge goes
/// back by steps (`steps`, `leveled`), so there is an order of the nodes that takes them step by step (`order`), hence a least
/// one (`least`), and no queue is ever stuck (`never_stuck`). It does nothing.
pub fn cut_laws()
    ensures stand { OfCut AllStand }
    ensures all { OfCut AreThese }
    ensures reads { OfCut ReadsAreLast }
    ensures full { OfCut IsAllFull }
    ensures opens { (program : Program) → AreOpen program }
    ensures sooner { OfScript AreSooner }
    ensures crossed { OfScript AreCrossed }
    ensures steps { (script : List Step) (count : ℕ) → AreSteps script count }
    ensures leveled { OfScript IsLeveled }
    ensures order { OfScript HasOrder }
    ensures least { OfScript HasLeast }
    ensures never_stuck { OfScript IsNeverStuck }
{
    timeline_laws();
    leveled_laws();
}
