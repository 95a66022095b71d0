//! Accesses in an order.

ghost use Rattle.std.specs.Prelude.{◌≡◌, ◌<◌, ℕ, length, IfOk};
ghost use Rattle.check_order.specs.Orders.{Among, Order};
ghost use Rattle.check_access.specs.ValidView.{Listed, ValidView};
ghost use Rattle.check_access.specs.Views.{node_accesses_of};

use crate::{Access, View};
use base::{List, NoMemory};
use std::alloc::Global;

/// An access, and the number of its node.
#[derive(Clone, Copy, Debug, PartialEq, Eq)]
pub struct NodeAccess {
    pub node: u32,
    pub access: Access,
}

/// The accesses of the nodes of `order`, node by node.
pub fn node_accesses_of(
    alloc: Global,
    view: &View,
    order: &[u32],
) -> Result<List<NodeAccess>, NoMemory>
    requires { (n : ℕ) → Among n order.now → n < length view.now.effects }
    ensures listed { IfOk result (λ node_accesses. ValidView view.now → Order view.now.nodes order.now → Listed view.now node_accesses) }
    ensures accesses { IfOk result (λ node_accesses. node_accesses ≡ node_accesses_of view.now order.now) }
{
    let mut node_accesses = List::new(alloc);
    for n in order {
        for access in view.effect_at(*n).accesses.as_slice() {
            node_accesses.push(NodeAccess {
                node: *n,
                access: *access,
            })?;
        }
    }
    Ok(node_accesses)
}
