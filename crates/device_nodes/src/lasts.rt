//! The last signals of queues.

ghost use Rattle.std.specs.Prelude.{◌≡◌, ◌<◌, ◌+◌, ℕ, not, length, get_or, IfOk, None};
ghost use Rattle.std.specs.List.{list_all};
ghost use Rattle.device_nodes.specs.Internal.Blocked.{is_open, signal_below, AreLast};
ghost use Rattle.device_model.specs.declared.phase.Phase.TheVariants.{Idle};
ghost use Rattle.check_access.specs.ValidView.{ValidView};

use base::{List, NoMemory};
use check_access::View;
use device_model::Phase;
use std::alloc::Global;

// Goes past node n.
fn put_signal(lasts: &mut List<Option<usize>>, view: &View, n: u32)
    requires shaped { ValidView view.now }
    requires n { n < length view.now.nodes }
    requires size { length lasts.old ≡ length view.now.families }
    ensures size { length lasts.new ≡ length lasts.old }
    ensures each { (q : ℕ) → get_or lasts.old q None ≡ signal_below view.now q n → get_or lasts.new q None ≡ signal_below view.now q (n + 1) }
{
    let node = view.node(n);
    if !node.kind.is_signal() {
        return;
    }
    lasts.set(node.queue as usize, Some(n as usize));
}

/// Of each queue its last signal, for which host reads wait.
pub(crate) fn last_signals(
    alloc: Global,
    view: &View,
    queues: usize,
) -> Result<List<Option<usize>>, NoMemory>
    requires shaped { ValidView view.now }
    requires queues { queues ≡ length view.now.families }
    ensures { IfOk result (λ lasts. AreLast view.now lasts) }
{
    let mut lasts = List::from_vec(vec![in alloc; None; queues]?);
    for n in 0..view.count() as u32 {
        put_signal(&mut lasts, view, n);
    }
    Ok(lasts)
}

/// Whether it is a node that is not done.
pub(crate) fn is_open(phases: &[Phase], node: Option<usize>) -> bool
    ensures { result ≡ is_open (λ n. get_or phases.now n Idle) node }
{
    match node {
        Some(n) => !phases.get(n).copied().unwrap_or(Phase::Idle).is_done(),
        None => false,
    }
}

/// Whether none of them is a node that is not done.
pub(crate) fn none_open(phases: &[Phase], nodes: &[Option<usize>]) -> bool
    ensures { result ≡ list_all (λ node. not (is_open (λ n. get_or phases.now n Idle) node)) nodes.now }
{
    nodes.iter().all(|node| !is_open(phases, *node))
}
