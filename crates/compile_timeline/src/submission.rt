//! The batches of a queue while they are written.

ghost use Rattle.std.specs.Prelude.{◌≡◌, ◌<◌, ◌≤◌, ℕ, [], ◌∷◌, true, false, length, get_or, IfOk, OnOk, Some};
ghost use Rattle.compile_timeline.specs.Internal.Submissions.{nothing, ended, Adds, SameBeforeWaits, IsClosed, needed_waits, item_parts};
ghost use Rattle.compile_timeline.specs.Internal.Walks.{NeedsBelow};
ghost use Rattle.compile_timeline.specs.Parts as part;

use crate::needs::Needs;
use crate::signals::Signals;
use base::{List, NoMemory};
use program::{Batch, Item, Signal, WaitFor};
use std::alloc::Global;
use std::mem;
use vk::Stages;

/// What is submitted to a queue: the batches that are ended, and the waits and items of the next one.
#[derive(Debug, Drop)]
pub(crate) struct Submission {
    batches: List<Batch>,
    waits: List<WaitFor>,
    items: List<Item>,
}

impl Submission {
    pub(crate) fn new(alloc: Global) -> Submission
        ensures { result ≡ nothing }
    {
        Submission {
            batches: List::new(alloc),
            waits: List::new(alloc),
            items: List::new(alloc),
        }
    }

    pub(crate) fn into_batches(self) -> List<Batch>
        ensures { result ≡ self.batches }
    {
        let Submission { batches, .. } = self;
        batches
    }

    fn end(&mut self, alloc: Global, signal: Option<Signal>) -> Result<(), NoMemory>
        ensures { OnOk result (self.new ≡ ended self.old signal) }
    {
        let waits = mem::replace(&mut self.waits, List::new(alloc));
        let items = mem::replace(&mut self.items, List::new(alloc));
        self.batches.push(Batch {
            waits,
            items,
            signal,
        })
    }

    // Ends a batch that has items, as a wait that follows does.
    fn begin(&mut self, alloc: Global) -> Result<(), NoMemory>
        ensures items { OnOk result (self.new.items ≡ []) }
        ensures same { OnOk result (SameBeforeWaits self.old self.new) }
    {
        if self.items.is_empty() {
            return Ok(());
        }
        self.end(alloc, None)
    }

    fn wait(&mut self, alloc: Global, wait: WaitFor) -> Result<(), NoMemory>
        ensures { OnOk result (Adds self.old self.new (part.Waits wait ∷ [])) }
    {
        self.begin(alloc)?;
        self.waits.push(wait)
    }

    fn item(&mut self, item: Item) -> Result<(), NoMemory>
        ensures { OnOk result (Adds self.old self.new (part.Does item ∷ [])) }
    {
        self.items.push(item)
    }

    // A signal ends its batch.
    fn signal(&mut self, alloc: Global, signal: Signal) -> Result<(), NoMemory>
        ensures added { OnOk result (Adds self.old self.new (part.Signals signal ∷ [])) }
        ensures closed { OnOk result (IsClosed self.new) }
    {
        self.end(alloc, Some(signal))
    }

    // The waits that the next item needs, in the order of queues.
    fn wait_for_needs(
        &mut self,
        alloc: Global,
        needs: &Needs,
        values: &[u64],
        count: u32,
    ) -> Result<(), NoMemory>
        requires below { NeedsBelow (length values.now) needs.now }
        requires count { count ≡ length needs.now.latest }
        ensures { OnOk result (Adds self.old self.new (needed_waits needs.now values.now count)) }
    {
        for queue in 0..count {
            if let Some(step) = needs.fresh(queue) {
                let wait = WaitFor {
                    queue,
                    value: values[step],
                    stages: Stages::ALL_COMMANDS,
                };
                self.wait(alloc, wait)?;
            }
        }
        Ok(())
    }

    /// Adds the item of step `at` with the waits before it and the signal after it.
    pub(crate) fn submit(
        &mut self,
        alloc: Global,
        needs: &Needs,
        signals: &Signals,
        at: usize,
        item: &Item,
        count: u32,
    ) -> Result<(), NoMemory>
        requires below { NeedsBelow (length signals.now.values) needs.now }
        requires count { count ≡ length needs.now.latest }
        requires at { at < length signals.now.values }
        requires signalled { length signals.now.signalled ≡ length signals.now.values }
        ensures added { OnOk result (Adds self.old self.new (item_parts needs.now signals.now at item.now)) }
        ensures closed { OnOk result (get_or signals.now.signalled at false ≡ true → IsClosed self.new) }
    {
        self.wait_for_needs(alloc, needs, &signals.values, count)?;
        self.item(item.copy(alloc)?)?;
        if signals.signalled[at] {
            self.signal(
                alloc,
                Signal {
                    value: signals.values[at],
                    stages: Stages::ALL_COMMANDS,
                },
            )?;
        }
        Ok(())
    }
}
