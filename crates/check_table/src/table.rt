//! The table of the order of accesses.

ghost use Rattle.std.specs.Prelude.{◌≡◌, ◌≤◌, length, IfOk};
ghost use Rattle.check_order.specs.Orders.{Order};
ghost use Rattle.check_table.specs.Channels.{MadeOf};
ghost use Rattle.check_table.specs.Joined.{joined, Dependencies};
ghost use Rattle.base_first.specs.Points.{Lined};
ghost use Rattle.check_table.specs.Internal.Laying.{laid_by};
ghost use Rattle.check_table.specs.Tables.{HasQueues, IsFilled, IsOrderTable, IsReady, laid_of};

use crate::channels::{Channels, channels_of};
use crate::laying::{Line, Seat, lay_all};
use crate::queues::queues_in_use;
use crate::{Channel, Join};
use base::NoMemory;
use base_first::{Firsts, Point, firsts_of};
use check_order::Edges;
use std::alloc::Global;
use vk::Stages;

/// The order of accesses, as a table: of each barrier, wait and signal, and of each run of commands in each stage, the first one
/// reached on each queue in each channel. Its size is that of nodes times queues times channels in use; queues after the last one that
/// has a node take nothing.
#[derive(Debug, Drop)]
pub struct OrderTable {
    pub(crate) points: Vec<Point>,
    pub(crate) seats: Vec<Seat>,
    pub(crate) channels: Vec<Channel>,
    // How many channels are by stages; they are the first ones, and that of signals is the next.
    pub(crate) stages: usize,
    pub(crate) queues: usize,
    pub(crate) firsts: Firsts,
}

// The table of points that are laid.
fn filled(
    alloc: Global,
    channels: Channels,
    line: Line,
    queues: usize,
) -> Result<OrderTable, NoMemory>
    requires few { queues ≤ 64 }
    requires channels { length channels.all.items ≤ 64 }
    requires points { length line.points.items ≤ 2097152 }
    requires lined { Lined line.points.items queues }
    requires ready { IsReady (laid_by line channels.all.items channels.stages) }
    ensures filled { IfOk result IsFilled }
    ensures same { IfOk result (λ table. laid_of table ≡ laid_by line channels.all.items channels.stages) }
{
    let firsts = firsts_of(alloc, &line.points, queues, channels.all.len())?;
    let Channels { all, stages } = channels;
    let Line { points, seats } = line;
    Ok(OrderTable {
        points,
        seats,
        channels: all,
        stages,
        queues,
        firsts,
    })
}

/// The table of the order of a program's nodes, which stand alone where `joins` does not reach. The order is one of these nodes,
/// of so many queues; scopes are made of these stages.
pub fn table_of(
    alloc: Global,
    edges: &Edges,
    joins: &[Join],
    order: &[u32],
    queues: usize,
    stages: &[Stages],
) -> Result<OrderTable, NoMemory>
    requires nodes { length order.now ≤ 65536 }
    requires dependencies { Dependencies (joined edges.now joins.now) }
    requires order { Order edges.now order.now }
    requires few { queues ≤ 64 }
    requires queues { HasQueues edges.now queues }
    requires least { length stages.now ≤ 21 }
    requires stages { MadeOf (joined edges.now joins.now) stages.now }
    ensures filled { IfOk result IsFilled }
    ensures table { IfOk result (IsOrderTable (joined edges.now joins.now)) }
{
    let channels = channels_of(alloc, edges, joins, stages)?;
    let line = lay_all(alloc, edges, joins, &channels.all, channels.stages, order)?;
    filled(alloc, channels, line, queues_in_use(edges, queues))
}
