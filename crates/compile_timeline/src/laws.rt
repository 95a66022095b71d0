//! Laws of queues that are cut from a list of steps.

ghost use Rattle.std.specs.Prelude.{ℕ, List};
ghost use Rattle.base.specs.declared.shape.Family.{Family};
ghost use Rattle.compile_timeline.specs.Laws.{AreParts, AreOfFamilies, AreNumbered, AllThere, InOrder, AreFor, AreMet, Ends, AreRising};
ghost use Rattle.compile_timeline.specs.Steps.{IsScript};
ghost use Rattle.compile_timeline.specs.declared.step.Step.{Step};

/// The nodes of the queues are the parts of the steps, each with its number, and these are in order. Each wait is for an
/// item that its queue needs, with a signal behind it; each need is met before the next item; each queue ends with a
/// signal; and the values of its signals rise.
pub fn timeline_laws()
    ensures parts { (script : List Step) (families : List Family) → AreParts script families }
    ensures families { (script : List Step) (families : List Family) → AreOfFamilies script families }
    ensures numbered { (script : List Step) (count : ℕ) → AreNumbered script count }
    ensures there { (script : List Step) (count : ℕ) → AllThere script count }
    ensures order { (script : List Step) (count : ℕ) → InOrder script count }
    ensures waits { (script : List Step) (count : ℕ) → IsScript script count → AreFor script count }
    ensures met { (script : List Step) → AreMet script }
    ensures ends { (script : List Step) (count : ℕ) → Ends script count }
    ensures values { (script : List Step) (count : ℕ) → AreRising script count }
{}
