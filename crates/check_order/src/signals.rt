//! The signals that meet waits.

ghost use Rattle.std.specs.Prelude.{◌≡◌, ◌<◌, ◌≤◌, length, IfOk};
ghost use Rattle.std.specs.List.{position};
ghost use Rattle.base.specs.Maxima.{max_nodes};
ghost use Rattle.check_order.specs.Edges.{node_at, reaches};
ghost use Rattle.check_order.specs.Internal.Tables.{link_of, links_until};

use crate::{Kind, Node};
use base::{List, NoMemory};
use std::alloc::Global;

fn first_reaching(nodes: &[Node], queue: u32, value: u64) -> Option<usize>
    ensures { result ≡ position (reaches queue value) nodes.now }
{
    nodes.iter().position(|node| node.reaches(queue, value))
}

fn link_of(nodes: &[Node], n: usize) -> Option<usize>
    requires few { length nodes.now ≤ max_nodes }
    requires n { n < length nodes.now }
    ensures { result ≡ link_of nodes.now n (node_at nodes.now n).kind }
{
    match nodes[n].kind {
        Kind::Wait { queue, value } => first_reaching(nodes, queue, value),
        _ => None,
    }
}

/// Of each wait the signal that meets it.
#[tactic(auto, using(crate::proofs::Tables::one_link))]
pub(crate) fn links_of(alloc: Global, nodes: &[Node]) -> Result<List<Option<usize>>, NoMemory>
    requires few { length nodes.now ≤ max_nodes }
    ensures { IfOk result (λ links. links ≡ links_until nodes.now (length nodes.now)) }
{
    let mut links = List::new(alloc);
    for n in 0..nodes.len() {
        links.push(link_of(nodes, n))?;
    }
    Ok(links)
}
