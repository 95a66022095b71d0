//! The queues that nodes are of.

ghost use Rattle.std.specs.Prelude.{◌≡◌, ◌≤◌, ◌↔◌, ℕ, true};
ghost use Rattle.check_table.specs.Internal.Queues.{IsInUse};
ghost use Rattle.check_table.specs.Tables.{HasQueues};

use check_order::Edges;

// Whether a node is of the queue.
fn has_node(edges: &Edges, queue: usize) -> bool
    ensures { (result ≡ true) ↔ IsInUse edges.now queue }
{
    for n in 0..edges.count() {
        let node = edges.node(n);
        if !node.kind.is_host() && node.queue as usize == queue {
            return true;
        }
    }
    false
}

/// Of so many queues, how many there are up to the last one that has a node.
pub(crate) fn queues_in_use(edges: &Edges, queues: usize) -> usize
    requires queues { HasQueues edges.now queues }
    ensures queues { HasQueues edges.now result }
    ensures least { (n : ℕ) → HasQueues edges.now n → result ≤ n }
{
    let mut used = queues;
    while used > 0 && !has_node(edges, used - 1) {
        used -= 1;
    }
    used
}
