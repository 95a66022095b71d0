//! Timelines of queues.

ghost use Rattle.std.specs.Prelude.{◌≡◌, ◌<◌, ℕ, length, get_or, true};
ghost use Rattle.check_order.specs.Edges.{is_signal};
ghost use Rattle.device_model.specs.Steps.{raised};

use base::List;
use check_order::Kind;
use device_model::raised_by;

/// A signal raises the counter of its queue.
pub(crate) fn raise(counters: &mut List<u64>, queue: u32, kind: Kind)
    requires { is_signal kind ≡ true → queue < length counters.old }
    ensures size { length counters.new ≡ length counters.old }
    ensures each { (q : ℕ) → get_or counters.new q 0 ≡ raised queue kind (λ q. get_or counters.old q 0) q }
{
    if !kind.is_signal() {
        return;
    }
    let next = raised_by(kind, counters[queue as usize]);
    counters.set(queue as usize, next);
}
