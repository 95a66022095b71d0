//! Which nodes may go on.

ghost use Rattle.std.specs.Prelude.{◌≡◌, ◌<◌, ◌&&◌, ◌||◌, not, length, get_or};
ghost use Rattle.device_nodes.specs.Internal.Blocked.{is_free, is_open, AreLast, Gathers};
ghost use Rattle.check_order.specs.Edges.{edge, meeting};
ghost use Rattle.device_model.specs.Ready.{each_node, kind_at, may_go};
ghost use Rattle.device_model.specs.States.{is_done, is_idle};
ghost use Rattle.device_model.specs.declared.phase.Phase.TheVariants.{Idle};
ghost use Rattle.check_access.specs.ValidView.{ValidView};
ghost use Rattle.check_access.specs.Views.{queue_at};

use crate::blocked::Blocked;
use crate::lasts::{is_open, none_open};
use check_access::View;
use device_model::{Phase, has_reached};

// Whether nothing blocks node n: what its queue blocks before it, the signal that meets it, and for a host read the last
// signals.
fn is_free(view: &View, phases: &[Phase], lasts: &[Option<usize>], blocked: Blocked, n: u32) -> bool
    requires n { n < length view.now.nodes }
    ensures { result ≡ is_free view.now (λ x. get_or phases.now x Idle) lasts.now blocked n }
{
    let node = view.node(n);
    !blocked.blocks(&node)
        && !is_open(phases, view.edges().met(n as usize))
        && (!node.kind.is_host() || none_open(phases, lasts))
}

// Whether each node with a direct edge to node n is done.
fn follows_done(
    view: &View,
    phases: &[Phase],
    lasts: &[Option<usize>],
    blocked: Blocked,
    n: u32,
) -> bool
    requires shaped { ValidView view.now }
    requires n { n < length view.now.nodes }
    requires lasts { AreLast view.now lasts.now }
    requires blocked { Gathers view.now (λ x. get_or phases.now x Idle) (queue_at view.now n) n blocked }
    ensures { result ≡ each_node view.now (λ x. not (edge view.now.nodes x n) || is_done (get_or phases.now x Idle)) }
{
    is_free(view, phases, lasts, blocked, n)
}

/// Whether the node may go on, where it is known what the earlier ones of its queue block.
pub(crate) fn may_go(
    view: &View,
    phases: &[Phase],
    counters: &[u64],
    lasts: &[Option<usize>],
    blocked: Blocked,
    n: u32,
) -> bool
    requires shaped { ValidView view.now }
    requires n { n < length view.now.nodes }
    requires size { length phases.now ≡ length view.now.nodes }
    requires lasts { AreLast view.now lasts.now }
    requires blocked { Gathers view.now (λ x. get_or phases.now x Idle) (queue_at view.now n) n blocked }
    ensures { result ≡ may_go view.now (λ x. get_or phases.now x Idle) (λ q. get_or counters.now q 0) n }
{
    if !phases[n as usize].is_idle() {
        return false;
    }
    if !follows_done(view, phases, lasts, blocked, n) {
        return false;
    }
    has_reached(view.node(n).kind, counters)
}

/// Whether the node is idle and no signal that is not done meets it: of a node that waits at no stage, whether it might go on.
pub(crate) fn might_go(view: &View, phases: &[Phase], n: u32) -> bool
    requires n { n < length view.now.nodes }
    requires size { length phases.now ≡ length view.now.nodes }
    ensures { result ≡ (is_idle (get_or phases.now n Idle) && not (is_open (λ x. get_or phases.now x Idle) (meeting view.now.nodes (kind_at view.now n)))) }
{
    phases[n as usize].is_idle() && !is_open(phases, view.edges().met(n as usize))
}
