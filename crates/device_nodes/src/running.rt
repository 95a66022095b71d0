//! Begun commands.

ghost use Rattle.std.specs.Prelude.{◌≡◌, ◌<◌, ◌≤◌, ◌+◌, ℕ, length, get_or, true, false, IfOk};
ghost use Rattle.base.specs.Maxima.{max_nodes};
ghost use Rattle.device_nodes.specs.Internal.Running.{Runs};
ghost use Rattle.device_model.specs.States.{is_begun, put};
ghost use Rattle.device_model.specs.declared.phase.Phase.{Phase};
ghost use Rattle.device_model.specs.declared.phase.Phase.TheVariants.{Begun, Done};

use base::{List, NoMemory};
use std::alloc::Global;

/// The numbers of the begun commands, in no order: the first `count` of a list that has room for all nodes.
#[derive(Debug, Drop)]
pub(crate) struct Running {
    pub(crate) nodes: List<u32>,
    pub(crate) count: usize,
}

impl Running {
    /// With room for so many nodes.
    pub(crate) fn new(alloc: Global, nodes: usize) -> Result<Self, NoMemory>
        ensures { IfOk result (λ running. (phase : ℕ → Phase) → ((n : ℕ) → is_begun (phase n) ≡ false) → Runs nodes phase running) }
    {
        Ok(Running {
            nodes: List::from_vec(vec![in alloc; 0; nodes]?),
            count: 0,
        })
    }

    /// Adds a node that is not begun.
    pub(crate) fn add(&mut self, node: u32)
        requires room { self.old.count < length self.old.nodes }
        requires few { length self.old.nodes ≤ max_nodes }
        ensures { (nodes : ℕ) (phase : ℕ → Phase) → node < nodes → is_begun (phase node) ≡ false → Runs nodes phase self.old → Runs nodes (put phase node Begun) self.new }
    {
        self.nodes.set(self.count, node);
        self.count += 1;
    }

    // Where the node is listed, or the count.
    fn place_of(&self, node: u32) -> usize
        requires { self.now.count ≤ length self.now.nodes }
        ensures here { result < self.now.count → get_or self.now.nodes result 0 ≡ node }
        ensures none { (k : ℕ) → k < result → get_or self.now.nodes k 0 ≡ node → ⊥ }
    {
        for i in 0..self.count {
            if self.nodes[i] == node {
                return i;
            }
        }
        self.count
    }

    /// Takes a node out.
    pub(crate) fn remove(&mut self, node: u32)
        requires { self.old.count ≤ length self.old.nodes }
        ensures { (nodes : ℕ) (phase : ℕ → Phase) → is_begun (phase node) ≡ true → Runs nodes phase self.old → Runs nodes (put phase node Done) self.new }
    {
        let place = self.place_of(node);
        if place >= self.count {
            return;
        }
        let last = self.nodes[self.count - 1];
        self.nodes.set(place, last);
        self.count -= 1;
    }
}
