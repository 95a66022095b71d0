//! Laws of the order of accesses where barriers may be recorded together.

ghost use Rattle.std.specs.Prelude.{List, []};
ghost use Rattle.check_access.specs.Views.{View};
ghost use Rattle.check_order.specs.declared.node.Node.{Node};
ghost use Rattle.check_table.specs.Joined.{Joined, Dependencies, joined};
ghost use Rattle.check_table.specs.Laws.{GoesThrough, IsSame};

/// Order goes on through what a command does in a stage (`through`). Nodes that stand alone are a case of nodes that may be
/// recorded together (`alone`), and their order is the order of accesses (`same`). It does nothing.
pub fn table_laws()
    ensures through { (W : Joined) → Dependencies W → GoesThrough W }
    ensures alone { (nodes : List Node) → Dependencies (joined nodes []) }
    ensures same { (V : View) → IsSame V }
{}
