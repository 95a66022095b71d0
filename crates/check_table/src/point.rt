//! The points of nodes and of runs of commands.

ghost use Rattle.std.specs.Prelude.{◌≡◌, ◌<◌, ◌≤◌, ℕ, true, length, Some, option_map};
ghost use Rattle.base.specs.Maxima.{max_nodes};
ghost use Rattle.check_order.specs.Edges.{node_at, meeting};
ghost use Rattle.check_table.specs.Internal.Laying.{IsNodePoint, IsSitePoint};
ghost use Rattle.check_table.specs.Joined.{joined};
ghost use Rattle.check_table.specs.Laid.{place};

use crate::join::join_at;
use crate::words::{ins_word, left_word, outs_word};
use crate::{Channel, Join, Seat};
use base_first::Point;
use check_order::Edges;
use vk::Stages;

// The place of the signal that meets a wait.
fn met_place(edges: &Edges, seats: &[Seat], n: usize) -> Option<u32>
    requires n { n < length edges.now }
    requires seats { length seats.now ≡ length edges.now }
    ensures { result ≡ option_map (λ g. place seats.now g) (meeting edges.now (node_at edges.now n).kind) }
{
    match edges.met(n) {
        Some(signal) => Some(seats[signal].place()),
        None => None,
    }
}

/// The point of a node that holds others back, where earlier nodes have their seats.
pub(crate) fn node_point(
    edges: &Edges,
    joins: &[Join],
    channels: &[Channel],
    seats: &[Seat],
    n: usize,
) -> Point
    requires n { n < length edges.now }
    requires seats { length seats.now ≡ length edges.now }
    requires channels { length channels.now ≤ 64 }
    ensures { IsNodePoint (joined edges.now joins.now) channels.now seats.now n result }
{
    let node = edges.node(n);
    let Join { role, first } = join_at(joins, n, edges.count());
    let outs = outs_word(channels, &node, role);
    Point {
        queue: node.queue,
        group: first,
        ins: ins_word(channels, &node, role),
        outs,
        shows: outs,
        met: met_place(edges, seats, n),
    }
}

/// The point of a run of commands, for a stage.
pub(crate) fn site_point(channels: &[Channel], stage: Stages, queue: u32, group: u32) -> Point
    requires channels { length channels.now ≤ 64 }
    ensures { IsSitePoint channels.now stage.0 queue group result }
{
    Point {
        queue,
        group,
        ins: 0,
        outs: left_word(channels, stage),
        shows: 0,
        met: None,
    }
}
