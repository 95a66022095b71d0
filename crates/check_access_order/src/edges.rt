//! Which synchronizing nodes what is in a stage leaves into, and which enter it.

ghost use Rattle.std.specs.Prelude.{◌≡◌, ◌<◌, length};
ghost use Rattle.check_access_order.specs.Edges.{waits_for, lets_in};

use bitflags::Flags;
use check_access::View;
use vk::Stages;

/// Whether node `x` is a later one of node `n`'s queue, and waits for what is in the stage.
pub fn waits_for(view: &View, stage: Stages, n: u32, x: u32) -> bool
    requires n { n < length view.now.nodes }
    requires x { x < length view.now.nodes }
    ensures { result ≡ waits_for view.now.nodes stage.0 n x }
{
    let (from, to) = (view.node(n), view.node(x));
    n < x && (from.queue == to.queue && (to.kind.is_sync() && stage.intersects(to.src_stages)))
}

/// Whether node `y` is an earlier one of node `m`'s queue, and what is in the stage waits for it.
pub fn lets_in(view: &View, stage: Stages, y: u32, m: u32) -> bool
    requires y { y < length view.now.nodes }
    requires m { m < length view.now.nodes }
    ensures { result ≡ lets_in view.now.nodes stage.0 y m }
{
    let (from, to) = (view.node(y), view.node(m));
    y < m && (from.queue == to.queue && (from.kind.is_sync() && from.dst_stages.intersects(stage)))
}
