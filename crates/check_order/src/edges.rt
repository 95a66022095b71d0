//! The direct edges of a program.

ghost use Rattle.std.specs.Prelude.{◌≡◌, ◌<◌, ◌≤◌, length, true, IfOk};
ghost use Rattle.base.specs.Maxima.{max_nodes};
ghost use Rattle.check_order.specs.Edges.{node_at, meeting};
ghost use Rattle.check_order.specs.Internal.Tables.{link_of};
ghost use Rattle.check_order.specs.Nodes.{program_nodes};

use crate::node::program_nodes;
use crate::signals::links_of;
use crate::{Kind, Node};
use base::{List, NoMemory};
use program::ValidProgram;
use std::alloc::Global;
use std::marker::Model;

/// The direct edges of a program: its nodes, and the signals that waits are joined to. They are not listed, since there can be as
/// many as half the square of the number of nodes.
#[derive(Debug, Drop)]
pub struct Edges {
    nodes: List<Node>,
    // Of a wait the signal that meets it.
    links: List<Option<usize>>,
}

impl Model for Edges {
    ghost use Rattle.std.specs.Prelude.{List};
    ghost use Rattle.check_order.specs.Internal.Tables.{HasLinks};
    ghost use Rattle.check_order.specs.declared.node.Node.{Node};

    ghost Value = { List Node };

    ghost view = { λ e. e.nodes };

    ghost invariant = { HasLinks };
}

/// The direct edges of a program.
pub fn direct(alloc: Global, program: &ValidProgram) -> Result<Edges, NoMemory>
    ensures { IfOk result (λ edges. edges ≡ program_nodes program.now) }
{
    let nodes = program_nodes(alloc, program)?;
    let links = links_of(alloc, &nodes)?;
    Ok(Edges { nodes, links })
}

impl Edges {
    /// The number of nodes.
    pub fn count(&self) -> usize
        ensures count { result ≡ length self.now }
        ensures few { result ≤ max_nodes }
    {
        self.nodes.len()
    }

    /// The node with the number `n`.
    pub fn node(&self, n: usize) -> Node
        requires n { n < length self.now }
        ensures { result ≡ node_at self.now n }
    {
        self.nodes[n]
    }

    fn link(&self, n: usize) -> Option<usize>
        requires n { n < length self.now }
        ensures { result ≡ link_of self.now n (node_at self.now n).kind }
    {
        self.links[n]
    }

    /// The signal that meets a wait.
    pub fn met(&self, n: usize) -> Option<usize>
        requires n { n < length self.now }
        ensures { result ≡ meeting self.now (node_at self.now n).kind }
    {
        match self.node(n).kind {
            Kind::Wait { .. } => self.link(n),
            _ => None,
        }
    }
}
