//! Where commands have one stage, both orders are the same.

ghost use Rattle.check_access.specs.ValidView.{ValidView};
ghost use Rattle.check_access.specs.Views.{View};
ghost use Rattle.check_access_order.specs.Single.{Single};
ghost use Rattle.law_nodes.specs.Laws.{SamePair, SameSynchronized, SameFirst, SameSound};

/// Where each command has one stage, the order of accesses over synchronizing nodes is that of their nodes over all nodes
/// (`pair`), and the same accesses are synchronized (`synchronized`), with the same first flaw (`first`); so the same views are
/// sound (`sound`). It does nothing.
pub fn node_laws()
    ensures pair { (V : View) → ValidView V → Single V → SamePair V }
    ensures synchronized { (V : View) → ValidView V → Single V → SameSynchronized V }
    ensures first { (V : View) → ValidView V → Single V → SameFirst V }
    ensures sound { (V : View) → ValidView V → Single V → SameSound V }
{}
