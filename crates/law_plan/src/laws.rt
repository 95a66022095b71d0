//! Laws of recorded programs.

ghost use Rattle.std.specs.Prelude.{ℕ, List};
ghost use Rattle.law_plan.specs.Laws.{Crosses, MakesSound, LowerFirst, LevelsGiveOrder, OrderGivesLeast, LevelsNeverStick};
ghost use Rattle.law_plan.specs.Nodes.{Nodes};
ghost use Rattle.law_plan.specs.Plans.{Plan};
ghost use Rattle.check_order.specs.declared.node.Node.{Node};
ghost use Rattle.check_access.specs.Views.{View};

use check_order::before_laws;

/// Where signals and waits are of ALL_COMMANDS and nodes in their places, what one command needs of another comes before it, on
/// one queue or over a signal and a wait (`crosses`). A shaped view that has the facts of a plan, each about one group, is sound
/// by its nodes in their least order (`sound`). It does nothing.
pub fn crossing_laws()
    ensures crosses { (F : Plan) (V : View) (N : Nodes) → Crosses F V N }
    ensures sound { (F : Plan) (V : View) (N : Nodes) → MakesSound F V N }
{
    before_laws();
}

/// Numbers by their levels stand lower levels first (`lower_first`). Nodes with levels that no edge lowers are so in order
/// (`order`), and the queues get through (`never_stuck`). Nodes that have an order have a least one (`least`). It does nothing.
pub fn leveled_laws()
    ensures lower_first { (level : ℕ → ℕ) (count : ℕ) → LowerFirst level count }
    ensures order { (nodes : List Node) (level : ℕ → ℕ) → LevelsGiveOrder nodes level }
    ensures least { (nodes : List Node) → OrderGivesLeast nodes }
    ensures never_stuck { (nodes : List Node) (level : ℕ → ℕ) → LevelsNeverStick nodes level }
{}
