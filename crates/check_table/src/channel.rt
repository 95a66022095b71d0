//! The channels in which nodes hold each other back.

ghost use Rattle.std.specs.Prelude.{◌≡◌};
ghost use Rattle.check_table.specs.Channels.{outs_of, ins_of, left_by};

use crate::Role;
use bitflags::Flags;
use check_order::Node;
use vk::Stages;

/// By what a channel joins nodes: by a stage; from a release, by one, to signals; from a wait, by one, to acquires; or from a signal
/// to all later ones of its queue.
#[derive(Clone, Copy, Debug, PartialEq, Eq)]
pub enum Way {
    Stage,
    Release,
    Acquire,
    Signal,
}

/// A channel, with one stage; that of signals has none. Two nodes of a queue hold each other back where the first is waited for in a
/// channel in which the second waits.
#[derive(Clone, Copy, Debug, PartialEq, Eq)]
pub struct Channel {
    pub way: Way,
    pub stage: Stages,
}

impl Channel {
    /// Whether others wait in it for the node.
    pub(crate) fn outs(self, node: &Node, role: Role) -> bool
        ensures { result ≡ outs_of self node.now role }
    {
        match self.way {
            Way::Stage => {
                node.kind.is_sync() && (role.gives() && node.dst_stages.intersects(self.stage))
            }
            Way::Release => {
                node.kind.is_sync() && (role.is_release() && node.dst_stages.intersects(self.stage))
            }
            Way::Acquire => {
                node.kind.is_wait() && (role.gives() && node.dst_stages.intersects(self.stage))
            }
            Way::Signal => node.kind.is_signal(),
        }
    }

    /// Whether the node waits in it.
    pub(crate) fn ins(self, node: &Node, role: Role) -> bool
        ensures { result ≡ ins_of self node.now role }
    {
        match self.way {
            Way::Stage => {
                node.kind.is_sync() && (role.takes() && self.stage.intersects(node.src_stages))
            }
            Way::Release => {
                node.kind.is_signal() && (role.takes() && self.stage.intersects(node.src_stages))
            }
            Way::Acquire => {
                node.kind.is_sync() && (role.is_acquire() && self.stage.intersects(node.src_stages))
            }
            Way::Signal => node.kind.is_signal(),
        }
    }

    /// Whether others wait in it for what a command does in the stage.
    pub(crate) fn left_by(self, stage: Stages) -> bool
        ensures { result ≡ left_by self stage.0 }
    {
        match self.way {
            Way::Stage => stage.0 == self.stage.0,
            _ => false,
        }
    }
}
