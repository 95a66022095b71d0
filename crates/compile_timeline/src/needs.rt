//! What one queue needs of the others.

ghost use Rattle.std.specs.Prelude.{◌≡◌, ℕ, ◌+◌, ◌<◌, ◌||◌, max, false, length, get_or, slice_set, replicate, IfOk};
ghost use Rattle.compile_timeline.specs.Below.{any_below};
ghost use Rattle.compile_timeline.specs.Internal.Walks.{fresh, is_for, Knows, NeedsBelow};
ghost use Rattle.compile_timeline.specs.Steps.{IsScript};

use crate::Step;
use base::{List, NoMemory};
use std::alloc::Global;

/// The latest step of each queue that one queue needs, counted from 1, and how that stood at its last item. 0 stands
/// for none.
#[derive(Debug, Drop)]
pub(crate) struct Needs {
    latest: List<usize>,
    stood: List<usize>,
}

/// So many zeros.
pub(crate) fn zeros(alloc: Global, count: u32) -> Result<List<usize>, NoMemory>
    ensures { IfOk result (λ zeros. zeros ≡ replicate count 0) }
{
    Ok(List::from_vec(vec![in alloc; 0; count as usize]?))
}

impl Needs {
    /// Before the first step.
    pub(crate) fn new(
        alloc: Global,
        script: &[Step],
        queue: u32,
        count: u32,
    ) -> Result<Needs, NoMemory>
        requires { IsScript script.now count }
        ensures knows { IfOk result (λ needs. Knows script.now queue 0 needs) }
        ensures size { IfOk result (λ needs. length needs.latest ≡ count) }
    {
        Ok(Needs {
            latest: zeros(alloc, count)?,
            stood: zeros(alloc, count)?,
        })
    }

    /// The latest step of a queue that is needed, if it was not needed at the last item yet.
    pub(crate) fn fresh(&self, queue: u32) -> Option<usize>
        requires latest { queue < length self.now.latest }
        requires stood { queue < length self.now.stood }
        ensures { result ≡ fresh self.now queue }
    {
        let latest = self.latest[queue as usize];
        if self.stood[queue as usize] < latest {
            Some(latest - 1)
        } else {
            None
        }
    }

    /// Marks the steps that the next item waits for.
    pub(crate) fn mark(&self, awaited: &mut List<bool>, count: u32)
        requires below { NeedsBelow (length awaited.old) self.now }
        requires count { count ≡ length self.now.latest }
        ensures size { length awaited.new ≡ length awaited.old }
        ensures marked { (j : ℕ) → get_or awaited.new j false ≡ (any_below (is_for self.now j) count || get_or awaited.old j false) }
    {
        for queue in 0..count {
            if let Some(step) = self.fresh(queue) {
                awaited.set(step, true);
            }
        }
    }

    // A need for a step of a queue.
    fn raise(&mut self, queue: u32, step: u32)
        requires { queue < length self.old.latest }
        ensures latest { self.new.latest ≡ slice_set self.old.latest queue (max (step + 1) (get_or self.old.latest queue 0)) }
        ensures stood { self.new.stood ≡ self.old.stood }
    {
        let latest = self.latest[queue as usize].max(step as usize + 1);
        self.latest.set(queue as usize, latest);
    }

    // The queue waited for all that it needs.
    fn settle(&mut self)
        requires { length self.old.stood ≡ length self.old.latest }
        ensures latest { self.new.latest ≡ self.old.latest }
        ensures size { length self.new.stood ≡ length self.old.latest }
        ensures stood { (p : ℕ) → p < length self.old.latest → get_or self.new.stood p 0 ≡ get_or self.old.latest p 0 }
    {
        for queue in 0..self.latest.len() {
            let latest = self.latest[queue];
            self.stood.set(queue, latest);
        }
    }

    /// Walks on over one step.
    pub(crate) fn pass(&mut self, script: &[Step], queue: u32, at: usize)
        requires at { at < length script.now }
        requires knows { Knows script.now queue at self.old }
        ensures knows { Knows script.now queue (at + 1) self.new }
        ensures size { length self.new.latest ≡ length self.old.latest }
    {
        match &script[at] {
            Step::Need { queue: own, step } => {
                if *own == queue {
                    self.raise(script[*step as usize].queue(), *step);
                }
            }
            Step::Item { queue: own, .. } => {
                if *own == queue {
                    self.settle();
                }
            }
        }
    }
}
