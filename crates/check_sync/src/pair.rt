//! Whether an earlier access and a later one are synchronized.

ghost use Rattle.std.specs.Prelude.{Option, ◌≡◌, ◌↔◌, ◌<◌, ◌≤◌, ◌==◌, ◌||◌, length, true, false, IfSome, MatchOption};
ghost use Rattle.base.specs.Maxima.{max_nodes};
ghost use Rattle.check_access.specs.AccessKinds.{changes, transfers};
ghost use Rattle.check_sync.specs.Internal.Around.{up_from, down_from};
ghost use Rattle.check_sync.specs.Internal.Passings.{AvailableAt, VisibleFrom, InvisibleFrom, NotPassed};
ghost use Rattle.check_sync.specs.Internal.Places.{Known, HasFlaw};
ghost use Rattle.check_access_order.specs.Order.{UpTo, LeavesIn, EntersIn};
ghost use Rattle.check_access_order.specs.Stages.{stage_by};
ghost use Rattle.check_access.specs.declared.access.AccessKind.TheVariants.{Load};
ghost use Rattle.vk.specs.declared.layout.Layout.{Layout};
ghost use Rattle.check_access_order.specs.Passing.{MadeAvailableBy, MadeVisibleBy, Reaches, Passed};
ghost use Rattle.check_sync.specs.Synchronized.{PairSynchronized};

use crate::Flaw;
use crate::listing::Listing;
use check_access::{AccessKind, Agent, NodeAccess};
use check_access_order::{lets_in, stage_by, waits_for};

// Number `k` of those below `count`, which go from `start` up and then on from 0.
fn up_from(start: u32, count: u32, k: u32) -> u32
    requires start { start < count }
    requires k { k < count }
    requires few { count ≤ max_nodes }
    ensures is { result ≡ up_from start count k }
    ensures below { result < count }
{
    if k < count - start {
        start + k
    } else {
        k - (count - start)
    }
}

// Number `k` of those below `count`, which go from `start` down to 0 and then down from the last one.
fn down_from(start: u32, count: u32, k: u32) -> u32
    requires start { start < count }
    requires k { k < count }
    requires few { count ≤ max_nodes }
    ensures is { result ≡ down_from start count k }
    ensures below { result < count }
{
    if k <= start {
        start - k
    } else {
        start + (count - k)
    }
}

impl<'a> Listing<'a> {
    // Whether node `x` is node `y`, or happens before it.
    fn is_up_to(&self, x: u32, y: u32) -> bool
        requires x { x < length self.now.view.nodes }
        requires y { y < length self.now.view.nodes }
        ensures { (result ≡ true) ↔ UpTo self.now.view x y }
    {
        x == y || self.happens_before(x, y)
    }

    // Whether what the agent does at node `n` leaves into node `x`.
    fn leaves(&self, agent: Agent, n: u32, x: u32) -> bool
        requires n { n < length self.now.view.nodes }
        requires x { x < length self.now.view.nodes }
        ensures { (result ≡ true) ↔ LeavesIn self.now.view.nodes (stage_by agent) n x }
    {
        match stage_by(agent) {
            Some(stage) => waits_for(self.view, stage, n, x),
            None => n == x,
        }
    }

    // Whether node `y` enters what the agent does at node `m`.
    fn enters(&self, agent: Agent, y: u32, m: u32) -> bool
        requires y { y < length self.now.view.nodes }
        requires m { m < length self.now.view.nodes }
        ensures { (result ≡ true) ↔ EntersIn self.now.view.nodes (stage_by agent) y m }
    {
        match stage_by(agent) {
            Some(stage) => lets_in(self.view, stage, y, m),
            None => y == m,
        }
    }

    // Whether node `y` enters the load, or is anywhere before a read by the host.
    fn reaches_load(&self, agent: Agent, y: u32, m: u32) -> bool
        requires y { y < length self.now.view.nodes }
        requires m { m < length self.now.view.nodes }
        ensures { (layout : Option Layout) → (result ≡ true) ↔ Reaches (Load agent layout) self.now.view y m }
    {
        match agent {
            Agent::Host => self.happens_before(y, m),
            Agent::Of { .. } => self.enters(agent, y, m),
        }
    }

    // Whether node `x` makes available what the access left.
    fn is_available_by(&self, a: NodeAccess, x: u32) -> bool
        requires a { Known self.now.view a }
        requires x { x < length self.now.view.nodes }
        ensures { (result ≡ true) ↔ MadeAvailableBy self.now.view a.node a.access x }
    {
        match a.access.kind {
            AccessKind::Store { agent, .. } => {
                self.view.makes_available(x, agent, a.access.piece) && self.leaves(agent, a.node, x)
            }
            AccessKind::Load { agent, .. } => self.leaves(agent, a.node, x),
            _ => a.node == x,
        }
    }

    // Whether node `y` makes memory visible to the access.
    fn is_visible_by(&self, b: NodeAccess, y: u32) -> bool
        requires b { Known self.now.view b }
        requires y { y < length self.now.view.nodes }
        ensures { (result ≡ true) ↔ MadeVisibleBy self.now.view b.node b.access y }
    {
        match b.access.kind {
            AccessKind::Load { agent, .. } => {
                self.view.makes_visible(y, agent, b.access.piece)
                    && self.reaches_load(agent, y, b.node)
            }
            AccessKind::Store { agent, .. } => {
                self.view.makes_visible(y, agent, b.access.piece) && self.enters(agent, y, b.node)
            }
            _ => y == b.node,
        }
    }

    // Whether node `y` is node `x` or comes after it, and makes memory visible to the access.
    fn is_visible_after(&self, x: u32, b: NodeAccess, y: u32) -> bool
        requires x { x < length self.now.view.nodes }
        requires b { Known self.now.view b }
        requires y { y < length self.now.view.nodes }
        ensures { (result ≡ true) ↔ (UpTo self.now.view x y × MadeVisibleBy self.now.view b.node b.access y) }
    {
        self.is_visible_by(b, y) && self.is_up_to(x, y)
    }

    // Whether memory is made visible to the access by node `x` or one that comes after it. Mostly it is one barrier that
    // makes a store available and visible, and so `x` is tried first.
    fn is_visible_from(&self, x: u32, b: NodeAccess) -> bool
        requires x { x < length self.now.view.nodes }
        requires b { Known self.now.view b }
        ensures { (result ≡ true) ↔ VisibleFrom self.now.view x b }
    {
        if self.is_visible_by(b, x) {
            return true;
        }
        let count = self.view.count() as u32;
        for k in 0..count {
            if self.is_visible_after(x, b, down_from(b.node, count, k)) {
                return true;
            }
        }
        false
    }

    // The same, where it may be known of a node that nothing from it on makes memory visible, and thus nothing from a later
    // one on.
    fn is_still_visible_from(&self, invisible_from: Option<u32>, x: u32, b: NodeAccess) -> bool
        requires invisible { IfSome invisible_from (λ d. InvisibleFrom self.now.view d b) }
        requires x { x < length self.now.view.nodes }
        requires b { Known self.now.view b }
        ensures { (result ≡ true) ↔ VisibleFrom self.now.view x b }
    {
        match invisible_from {
            Some(d) if self.happens_before(d, x) => false,
            _ => self.is_visible_from(x, b),
        }
    }

    // Whether node `x` makes available what the first left, and the second is entered from it on.
    fn is_available_at(&self, a: NodeAccess, x: u32, b: NodeAccess) -> bool
        requires a { Known self.now.view a }
        requires x { x < length self.now.view.nodes }
        requires b { Known self.now.view b }
        ensures { (result ≡ true) ↔ AvailableAt self.now.view a x b }
    {
        self.is_available_by(a, x) && self.is_entered_from(x, b)
    }

    // Why what the first left does not reach the second, if it does not.
    fn flaw_in_passing(&self, a: NodeAccess, b: NodeAccess) -> Option<Flaw>
        requires a { Known self.now.view a }
        requires b { Known self.now.view b }
        ensures { MatchOption result (Passed self.now.view a.node a.access b.node b.access) (λ flaw. NotPassed flaw self.now.view a b) }
    {
        let count = self.view.count() as u32;
        let mut invisible_from = None;
        for k in 0..count {
            let x = up_from(a.node, count, k);
            if self.is_available_at(a, x, b) {
                if self.is_still_visible_from(invisible_from, x, b) {
                    return None;
                }
                invisible_from = Some(x);
            }
        }
        match invisible_from {
            None => Some(Flaw::NotAvailable),
            Some(_) => Some(Flaw::NotVisible),
        }
    }

    /// Why the earlier access and the later one are not synchronized, if they are not.
    pub(crate) fn flaw_between(&self, a: NodeAccess, b: NodeAccess) -> Option<Flaw>
        requires a { Known self.now.view a }
        requires b { Known self.now.view b }
        ensures { MatchOption result (PairSynchronized self.now.view a b) (λ flaw. HasFlaw flaw self.now.view a b) }
    {
        if a.node == b.node || !self.view.clash(a.access, b.access) {
            return None;
        }
        if !self.is_in_order(a, b) {
            return Some(Flaw::Unordered);
        }
        if !a.access.kind.changes() || b.access.kind.transfers() {
            return None;
        }
        self.flaw_in_passing(a, b)
    }
}
