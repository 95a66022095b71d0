//! Laws of happens-before.

ghost use Rattle.std.specs.Prelude.{List};
ghost use Rattle.check_order.specs.Laws.{GoesForward, IsTransitive, IsIrreflexive, IsAsymmetric, IsWithin, IsEnding};
ghost use Rattle.check_order.specs.declared.node.Node.{Node};
ghost use Rattle.program.specs.declared.program.Program.{Program};

/// Happens-before goes forward in every order of the nodes (`forward`) and never back (`asymmetric`), so where an order
/// exists it joins no node to itself (`irreflexive`); paths join up (`transitive`), their nodes are there (`within`), and none
/// goes on from a host read of a program (`ends`).
pub fn before_laws()
    ensures forward { (nodes : List Node) → GoesForward nodes }
    ensures transitive { (nodes : List Node) → IsTransitive nodes }
    ensures irreflexive { (nodes : List Node) → IsIrreflexive nodes }
    ensures asymmetric { (nodes : List Node) → IsAsymmetric nodes }
    ensures within { (nodes : List Node) → IsWithin nodes }
    ensures ends { (program : Program) → IsEnding program }
{}
