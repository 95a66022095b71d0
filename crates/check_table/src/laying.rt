//! Points are laid for nodes, in an order of these.

ghost use Rattle.std.specs.Prelude.{◌≡◌, ◌<◌, ◌≤◌, ◌+◌, ◌++◌, ◌∷◌, [], true, length, set, get_or, IfOk, IfSome};
ghost use Rattle.check_access_order.specs.Edges.{is_command};
ghost use Rattle.check_order.specs.Edges.{node_at, is_sync, is_host};
ghost use Rattle.check_order.specs.Orders.{Order};
ghost use Rattle.check_table.specs.Internal.Laying.{IsLaying, WithSites, GoesOn};
ghost use Rattle.check_table.specs.Joined.{joined, Dependencies};
ghost use Rattle.check_table.specs.Laid.{place_of};

use crate::join::join_at;
use crate::point::{node_point, site_point};
use crate::{Channel, Join};
use base::NoMemory;
use base_first::Point;
use check_order::Edges;
use std::alloc::Global;

/// Where a node stands in the line of points.
#[derive(Clone, Copy, Debug, PartialEq, Eq)]
pub enum Seat {
    /// The place of the point of a barrier, a wait or a signal.
    Node(u32),
    /// The first place of the run of a command, which has a point for each stage.
    Run(u32),
    /// A host read has no place.
    Host,
}

impl Seat {
    /// Its place; of a host read 0.
    pub(crate) fn place(self) -> u32
        ensures { result ≡ place_of self }
    {
        match self {
            Seat::Node(p) | Seat::Run(p) => p,
            Seat::Host => 0,
        }
    }
}

/// Points, and the seats of the nodes that have any.
#[derive(Debug, Drop)]
pub(crate) struct Line {
    pub points: Vec<Point>,
    pub seats: Vec<Seat>,
}

// A point for each stage, for a run of commands.
fn push_sites(
    points: Vec<Point>,
    channels: &[Channel],
    stages: usize,
    queue: u32,
    group: u32,
) -> Result<Vec<Point>, NoMemory>
    requires few { length channels.now ≤ 64 }
    requires stages { stages ≤ length channels.now }
    ensures { IfOk result (λ new. WithSites channels.now stages queue group points.items new.items) }
{
    let mut all = points;
    for t in 0..stages {
        all.push(site_point(channels, channels[t].stage, queue, group))?;
    }
    Ok(all)
}

// The place of the run that node `n` goes on: that of the node before it, if that is a command of its queue.
fn run_before(edges: &Edges, seats: &[Seat], n: usize) -> Option<u32>
    requires n { n < length edges.now }
    requires seats { length seats.now ≡ length edges.now }
    ensures { IfSome result (GoesOn edges.now seats.now n) }
{
    if n == 0 || edges.node(n - 1).queue != edges.node(n).queue {
        return None;
    }
    match seats[n - 1] {
        Seat::Run(p) => Some(p),
        _ => None,
    }
}

// The node at place `k` of the order.
fn next_node(edges: &Edges, order: &[u32], k: usize) -> usize
    requires order { Order edges.now order.now }
    requires k { k < length order.now }
    ensures is { result ≡ get_or order.now k 0 }
    ensures there { result < length edges.now }
{
    order[k] as usize
}

fn with_seat(seats: Vec<Seat>, n: usize, seat: Seat) -> Vec<Seat>
    requires n { n < length seats.items }
    ensures { result.items ≡ set seats.items n seat }
{
    let mut seats = seats;
    seats[n] = seat;
    seats
}

fn with_point(points: Vec<Point>, point: Point) -> Result<Vec<Point>, NoMemory>
    ensures { IfOk result (λ new. new.items ≡ points.items ++ point ∷ []) }
{
    let mut points = points;
    points.push(point)?;
    Ok(points)
}

// Lays the point of a barrier, a wait or a signal, the node at place `k` of the order.
fn lay_node(
    line: Line,
    edges: &Edges,
    joins: &[Join],
    channels: &[Channel],
    stages: usize,
    order: &[u32],
    k: usize,
) -> Result<Line, NoMemory>
    requires few { length channels.now ≤ 64 }
    requires dependencies { Dependencies (joined edges.now joins.now) }
    requires order { Order edges.now order.now }
    requires k { k < length order.now }
    requires nodes { length order.now ≤ 65536 }
    requires sync { is_sync (node_at edges.now (get_or order.now k 0)).kind ≡ true }
    requires laying { IsLaying (joined edges.now joins.now) order.now channels.now stages k line }
    ensures { IfOk result (IsLaying (joined edges.now joins.now) order.now channels.now stages (k + 1)) }
{
    let Line { points, seats } = line;
    let n = next_node(edges, order, k);
    let place = points.len() as u32;
    let point = node_point(edges, joins, channels, &seats, n);
    let points = with_point(points, point)?;
    let seats = with_seat(seats, n, Seat::Node(place));
    Ok(Line { points, seats })
}

// Gives the command at place `k` of the order the run of the command before it.
fn go_on(
    line: Line,
    edges: &Edges,
    joins: &[Join],
    channels: &[Channel],
    stages: usize,
    order: &[u32],
    k: usize,
    place: u32,
) -> Line
    requires few { length channels.now ≤ 64 }
    requires dependencies { Dependencies (joined edges.now joins.now) }
    requires order { Order edges.now order.now }
    requires k { k < length order.now }
    requires nodes { length order.now ≤ 65536 }
    requires command { is_command (node_at edges.now (get_or order.now k 0)).kind ≡ true }
    requires laying { IsLaying (joined edges.now joins.now) order.now channels.now stages k line }
    requires run { GoesOn edges.now line.seats.items (get_or order.now k 0) place }
    ensures { IsLaying (joined edges.now joins.now) order.now channels.now stages (k + 1) result }
{
    let Line { points, seats } = line;
    let n = next_node(edges, order, k);
    let seats = with_seat(seats, n, Seat::Run(place));
    Line { points, seats }
}

// Lays the points of a run that begins with the command at place `k` of the order.
fn begin_run(
    line: Line,
    edges: &Edges,
    joins: &[Join],
    channels: &[Channel],
    stages: usize,
    order: &[u32],
    k: usize,
) -> Result<Line, NoMemory>
    requires stages { stages ≤ 32 }
    requires channels { stages ≤ length channels.now }
    requires few { length channels.now ≤ 64 }
    requires dependencies { Dependencies (joined edges.now joins.now) }
    requires order { Order edges.now order.now }
    requires k { k < length order.now }
    requires nodes { length order.now ≤ 65536 }
    requires command { is_command (node_at edges.now (get_or order.now k 0)).kind ≡ true }
    requires laying { IsLaying (joined edges.now joins.now) order.now channels.now stages k line }
    ensures { IfOk result (IsLaying (joined edges.now joins.now) order.now channels.now stages (k + 1)) }
{
    let Line { points, seats } = line;
    let n = next_node(edges, order, k);
    let place = points.len() as u32;
    let queue = edges.node(n).queue;
    let group = join_at(joins, n, edges.count()).first;
    let points = push_sites(points, channels, stages, queue, group)?;
    let seats = with_seat(seats, n, Seat::Run(place));
    Ok(Line { points, seats })
}

// Gives the command at place `k` of the order the run of the command before it, or lays the points of a new one.
fn lay_command(
    line: Line,
    edges: &Edges,
    joins: &[Join],
    channels: &[Channel],
    stages: usize,
    order: &[u32],
    k: usize,
) -> Result<Line, NoMemory>
    requires stages { stages ≤ 32 }
    requires channels { stages ≤ length channels.now }
    requires few { length channels.now ≤ 64 }
    requires dependencies { Dependencies (joined edges.now joins.now) }
    requires order { Order edges.now order.now }
    requires k { k < length order.now }
    requires nodes { length order.now ≤ 65536 }
    requires command { is_command (node_at edges.now (get_or order.now k 0)).kind ≡ true }
    requires laying { IsLaying (joined edges.now joins.now) order.now channels.now stages k line }
    ensures { IfOk result (IsLaying (joined edges.now joins.now) order.now channels.now stages (k + 1)) }
{
    let n = next_node(edges, order, k);
    match run_before(edges, &line.seats, n) {
        Some(place) => Ok(go_on(line, edges, joins, channels, stages, order, k, place)),
        None => begin_run(line, edges, joins, channels, stages, order, k),
    }
}

// Gives the host read at place `k` of the order its seat.
fn lay_host(
    line: Line,
    edges: &Edges,
    joins: &[Join],
    channels: &[Channel],
    stages: usize,
    order: &[u32],
    k: usize,
) -> Line
    requires order { Order edges.now order.now }
    requires dependencies { Dependencies (joined edges.now joins.now) }
    requires k { k < length order.now }
    requires host { is_host (node_at edges.now (get_or order.now k 0)).kind ≡ true }
    requires laying { IsLaying (joined edges.now joins.now) order.now channels.now stages k line }
    ensures { IsLaying (joined edges.now joins.now) order.now channels.now stages (k + 1) result }
{
    let Line { points, seats } = line;
    let n = next_node(edges, order, k);
    let seats = with_seat(seats, n, Seat::Host);
    Line { points, seats }
}

fn lay(
    line: Line,
    edges: &Edges,
    joins: &[Join],
    channels: &[Channel],
    stages: usize,
    order: &[u32],
    k: usize,
) -> Result<Line, NoMemory>
    requires few { length channels.now ≤ 64 }
    requires stages { stages ≤ 32 }
    requires channels { stages ≤ length channels.now }
    requires dependencies { Dependencies (joined edges.now joins.now) }
    requires order { Order edges.now order.now }
    requires k { k < length order.now }
    requires nodes { length order.now ≤ 65536 }
    requires laying { IsLaying (joined edges.now joins.now) order.now channels.now stages k line }
    ensures { IfOk result (IsLaying (joined edges.now joins.now) order.now channels.now stages (k + 1)) }
{
    let kind = edges.node(next_node(edges, order, k)).kind;
    if kind.is_sync() {
        return lay_node(line, edges, joins, channels, stages, order, k);
    }
    if kind.is_host() {
        return Ok(lay_host(line, edges, joins, channels, stages, order, k));
    }
    lay_command(line, edges, joins, channels, stages, order, k)
}

/// The points of all nodes, in the order.
pub(crate) fn lay_all(
    alloc: Global,
    edges: &Edges,
    joins: &[Join],
    channels: &[Channel],
    stages: usize,
    order: &[u32],
) -> Result<Line, NoMemory>
    requires few { length channels.now ≤ 64 }
    requires stages { stages ≤ 32 }
    requires channels { stages ≤ length channels.now }
    requires dependencies { Dependencies (joined edges.now joins.now) }
    requires order { Order edges.now order.now }
    requires nodes { length order.now ≤ 65536 }
    ensures { IfOk result (IsLaying (joined edges.now joins.now) order.now channels.now stages (length order.now)) }
{
    let mut line = Line {
        points: Vec::new(alloc),
        seats: vec![in alloc; Seat::Host; edges.count()]?,
    };
    for k in 0..order.len() {
        line = lay(line, edges, joins, channels, stages, order, k)?;
    }
    Ok(line)
}
