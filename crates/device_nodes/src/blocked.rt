//! What open nodes of a queue block.

ghost use Rattle.std.specs.Prelude.{◌≡◌, ◌&&◌, ◌||◌, not, false, if◌then◌else◌};
ghost use Rattle.std.specs.Int.RustNames.{bit_or};
ghost use Rattle.device_nodes.specs.Internal.Blocked.{is_blocked};
ghost use Rattle.check_order.specs.Edges.{is_signal, is_sync};

use bitflags::Flags;
use check_order::Node;
use vk::Stages;

/// What the nodes of a queue that are not done block, up to some number.
#[derive(Clone, Copy)]
pub(crate) struct Blocked {
    /// The stages of later nodes that wait for a barrier, wait or signal.
    pub(crate) by_syncs: Stages,
    /// Those that wait for any node; barriers, waits and signals wait for commands too.
    pub(crate) by_all: Stages,
    /// The last signal is not done.
    pub(crate) signal: bool,
}

impl Blocked {
    /// Before all nodes.
    pub(crate) fn nothing() -> Blocked
        ensures by_syncs { result.by_syncs.0 ≡ 0 }
        ensures by_all { result.by_all.0 ≡ 0 }
        ensures signal { result.signal ≡ false }
    {
        Blocked {
            by_syncs: Stages::empty(),
            by_all: Stages::empty(),
            signal: false,
        }
    }

    // Goes past an open node.
    fn past_open(self, node: &Node) -> Blocked
        ensures by_syncs { result.by_syncs.0 ≡ (if is_sync node.now.kind then bit_or self.by_syncs.0 node.now.dst_stages.0 else self.by_syncs.0) }
        ensures by_all { result.by_all.0 ≡ bit_or self.by_all.0 node.now.dst_stages.0 }
        ensures signal { result.signal ≡ (is_signal node.now.kind || self.signal) }
    {
        Blocked {
            by_syncs: if node.kind.is_sync() {
                self.by_syncs.union(node.dst_stages)
            } else {
                self.by_syncs
            },
            by_all: self.by_all.union(node.dst_stages),
            signal: node.kind.is_signal() || self.signal,
        }
    }

    /// Goes past the next node of the queue.
    pub(crate) fn past(self, node: &Node, is_done: bool) -> Blocked
        ensures by_syncs { result.by_syncs.0 ≡ (if not is_done && is_sync node.now.kind then bit_or self.by_syncs.0 node.now.dst_stages.0 else self.by_syncs.0) }
        ensures by_all { result.by_all.0 ≡ (if not is_done then bit_or self.by_all.0 node.now.dst_stages.0 else self.by_all.0) }
        ensures signal { result.signal ≡ (if is_signal node.now.kind then not is_done else self.signal) }
    {
        if !is_done {
            return self.past_open(node);
        }
        Blocked {
            signal: !node.kind.is_signal() && self.signal,
            ..self
        }
    }

    /// Whether it blocks the next node of the queue.
    pub(crate) fn blocks(self, node: &Node) -> bool
        ensures { result ≡ is_blocked self node.now }
    {
        let stages = if node.kind.is_sync() {
            self.by_all
        } else {
            self.by_syncs
        };
        stages.intersects(node.src_stages) || node.kind.is_signal() && self.signal
    }
}
