//! How far the timelines of queues are.

ghost use Rattle.std.specs.Prelude.{◌≡◌, get_or};
ghost use Rattle.device_model.specs.Ready.{reached};
ghost use Rattle.device_model.specs.Steps.{raised_by};

use check_order::Kind;

/// Whether the timelines have reached what a node waits for. A queue without a counter has not been signalled.
pub fn has_reached(kind: Kind, counters: &[u64]) -> bool
    ensures { result ≡ reached kind (λ q. get_or counters.now q 0) }
{
    match kind {
        Kind::Wait { queue, value } => {
            value <= counters.get(queue as usize).copied().unwrap_or(0)
        }
        _ => true,
    }
}

/// The value of a queue's timeline after a node of the queue: a signal raises it, and never lowers it.
pub fn raised_by(kind: Kind, reached: u64) -> u64
    ensures { result ≡ raised_by kind reached }
{
    match kind {
        Kind::Signal { value } => value.max(reached),
        _ => reached,
    }
}
