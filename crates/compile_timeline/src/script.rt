//! Which lists of steps can be cut into queues.

ghost use Rattle.std.specs.Prelude.{◌≡◌, ◌<◌, ◌≤◌, ◌&&◌, ◌↔◌, nat_lt, true, length};
ghost use Rattle.compile_timeline.specs.Internal.Scripts.{has_other_item, is_fit};
ghost use Rattle.compile_timeline.specs.Steps.{IsScript};

use crate::Step;
use base::Family;

// Whether an earlier item of another queue stands there.
fn is_earlier_item(script: &[Step], queue: u32, step: usize, at: usize) -> bool
    requires { at ≤ length script.now }
    ensures { result ≡ (nat_lt step at && has_other_item script.now queue step) }
{
    step < at && script[step].is_other_item(queue)
}

fn is_fit(script: &[Step], at: usize, count: usize) -> bool
    requires { at < length script.now }
    ensures { result ≡ is_fit script.now count at }
{
    match &script[at] {
        Step::Item { queue, .. } => (*queue as usize) < count,
        Step::Need { queue, step } => {
            (*queue as usize) < count && is_earlier_item(script, *queue, *step as usize, at)
        }
    }
}

/// Whether each step is of one of these families' queues, and each need for an earlier item of another queue.
pub fn is_script(script: &[Step], families: &[Family]) -> bool
    ensures { (result ≡ true) ↔ IsScript script.now (length families.now) }
{
    for at in 0..script.len() {
        if !is_fit(script, at, families.len()) {
            return false;
        }
    }
    true
}
