//! Nodes, pieces and timelines of a running device.

ghost use Rattle.std.specs.Prelude.{◌≡◌, ◌<◌, ◌+◌, ◌==◌, ◌&&◌, ◌↔◌, ℕ, List, length, true, false, IsTrue, IfOk, IfSome, IfNone};
ghost use Rattle.device_cache.specs.Lines.{Bytes};
ghost use Rattle.device_nodes.specs.Internal.Blocked.{Gathers};
ghost use Rattle.device_nodes.specs.Internal.Needs.{NoLooseReady, NoneReadyFrom};
ghost use Rattle.device_nodes.specs.Controls.{phase_of, mark_of, counter_of, is_ready, Agrees, IsNext, NoneReady};
ghost use Rattle.device_model.specs.Laws.{AllDone};
ghost use Rattle.device_model.specs.Ready.{loads_undefined};
ghost use Rattle.device_model.specs.States.{State, is_begun, is_done, opened};
ghost use Rattle.device_model.specs.Steps.{begun, ended, synced, hosted};
ghost use Rattle.check_access.specs.ValidView.{ValidView};
ghost use Rattle.check_access.specs.Views.{view_of, queue_at};

use crate::blocked::Blocked;
use crate::fresh::Fresh;
use crate::going::{may_go, might_go};
use crate::lasts::last_signals;
use crate::marks::{hits_running, mark};
use crate::needs::Needs;
use crate::pieces::{lay, own};
use crate::running::Running;
use crate::spans::{Spans, finish};
use crate::timeline::raise;
use crate::undefined::loads_undefined;
use base::{List, NoMemory};
use check_access::{Access, View, view_of};
use device_model::{Owner, Phase};
use program::ValidProgram;
use std::alloc::Global;
use std::marker::Model;
use vk::Layout;

/// How far each node is and whether it is marked, the layout and the owner of each piece, and the timelines. It holds no bytes.
/// Only `new` takes memory.
#[derive(Debug, Drop)]
pub struct Control {
    view: View,
    phases: List<Phase>,
    marked: List<bool>,
    layouts: List<Layout>,
    owners: List<Owner>,
    counters: List<u64>,
    running: Running,
    spans: Spans,
    // Of each queue its last signal.
    lasts: List<Option<usize>>,
    needs: Needs,
}

impl Model for Control {
    ghost use Rattle.device_nodes.specs.Controls.{Control};
    ghost use Rattle.device_nodes.specs.Internal.Kept.{control_in, IsKept};

    ghost Value = { Control };

    ghost view = { control_in };

    ghost invariant = { IsKept };
}

impl Control {
    /// Of a program of which nothing has run.
    pub fn new(alloc: Global, program: &ValidProgram) -> Result<Self, NoMemory>
        ensures view { IfOk result (λ control. control.view ≡ view_of program.now) }
        ensures agrees { IfOk result (λ control. (main : Bytes) → Agrees control (opened main)) }
    {
        let view = view_of(alloc, program)?;
        let queues = program.program().queues.len();
        let fresh = Fresh::of(alloc, &view, queues)?;
        let running = Running::new(alloc, view.count())?;
        let spans = Spans::new(alloc, &view, &fresh.phases, queues + 1)?;
        let lasts = last_signals(alloc, &view, queues)?;
        let needs = Needs::new(alloc, &view)?;
        Ok(Control {
            view,
            phases: fresh.phases,
            marked: fresh.marked,
            layouts: fresh.layouts,
            owners: fresh.owners,
            counters: fresh.counters,
            running,
            spans,
            lasts,
            needs,
        })
    }

    /// The program as it is checked.
    pub fn view(&self) -> &View
        ensures view { result.now ≡ self.now.view }
        ensures shaped { ValidView self.now.view }
    {
        &self.view
    }

    // What is blocked after one number more.
    fn past(&self, blocked: Blocked, queue: u32, n: u32) -> Blocked
        requires n { n < length self.now.view.nodes }
        requires blocked { Gathers self.now.view (phase_of self.now) queue n blocked }
        ensures { Gathers self.now.view (phase_of self.now) queue (n + 1) result }
    {
        let node = self.view.node(n);
        if node.queue != queue {
            return blocked;
        }
        blocked.past(&node, self.phases[n as usize].is_done())
    }

    // Whether the node may go on, where it is known what is blocked.
    fn may_go(&self, blocked: Blocked, n: u32) -> bool
        requires n { n < length self.now.view.nodes }
        requires blocked { Gathers self.now.view (phase_of self.now) (queue_at self.now.view n) n blocked }
        ensures { result ≡ is_ready self.now n }
    {
        may_go(
            &self.view,
            &self.phases,
            &self.counters,
            &self.lasts,
            blocked,
            n,
        )
    }

    // Whether the node is of the queue and may go on, where it is known what the queue blocks.
    fn is_next(&self, blocked: Blocked, queue: u32, n: u32) -> bool
        requires n { n < length self.now.view.nodes }
        requires blocked { Gathers self.now.view (phase_of self.now) queue n blocked }
        ensures { result ≡ ((queue_at self.now.view n == queue) && is_ready self.now n) }
    {
        if self.view.node(n).queue != queue {
            return false;
        }
        self.may_go(blocked, n)
    }

    /// Whether the node is idle, and all that it waits for is done.
    pub fn is_ready(&self, node: u32) -> bool
        requires { node < length self.now.view.nodes }
        ensures { result ≡ is_ready self.now node }
    {
        let queue = self.view.node(node).queue;
        let mut blocked = Blocked::nothing();
        for n in self.spans.from(queue as usize).min(node)..node {
            blocked = self.past(blocked, queue, n);
        }
        self.may_go(blocked, node)
    }

    // Whether the node, if it waits at no stage, is of the queue and might go on.
    fn might_come(&self, queue: u32, n: u32) -> bool
        requires { n < length self.now.view.nodes }
        ensures { result ≡ false → queue_at self.now.view n ≡ queue → is_ready self.now n ≡ false }
    {
        self.view.node(n).queue == queue && might_go(&self.view, &self.phases, n)
    }

    // Whether one of the queue's nodes that wait at no stage might go on.
    fn some_might_come(&self, queue: u32) -> bool
        ensures { result ≡ false → NoLooseReady self.now queue }
    {
        for i in 0..self.needs.loose.len() {
            if self.might_come(queue, self.needs.loose[i]) {
                return true;
            }
        }
        false
    }

    // Whether what is blocked before number n blocks every node of the queue from it on that waits at some stage.
    fn all_wait(&self, blocked: Blocked, queue: u32, n: u32) -> bool
        requires blocked { Gathers self.now.view (phase_of self.now) queue n blocked }
        ensures { IsTrue result → NoLooseReady self.now queue → NoneReadyFrom self.now queue n }
    {
        self.needs.block_all(blocked.by_syncs, queue)
    }

    /// The least ready node of a queue; host reads are of the number after the last queue.
    pub fn pick(&self, queue: u32) -> Option<u32>
        ensures some { IfSome result (IsNext self.now queue) }
        ensures none { IfNone result (NoneReady self.now queue) }
    {
        let mut blocked = Blocked::nothing();
        let mut looked = false;
        let from = self.spans.from(queue as usize);
        for n in from..self.spans.to(&self.view, queue as usize) {
            if self.is_next(blocked, queue, n) {
                return Some(n);
            }
            blocked = self.past(blocked, queue, n);
            if !looked && self.all_wait(blocked, queue, n + 1) {
                if !self.some_might_come(queue) {
                    return None;
                }
                looked = true;
            }
        }
        None
    }

    /// Whether the bytes that the node loads by this access are junk.
    pub fn loads_undefined(&self, node: u32, access: Access) -> bool
        requires node { node < length self.now.view.nodes }
        requires piece { access.piece < length self.now.view.pieces }
        ensures { (s : State) → Agrees self.now s → result ≡ loads_undefined self.now.view s node access }
    {
        let piece = access.piece as usize;
        let (layout, owner) = (self.layouts[piece], self.owners[piece]);
        loads_undefined(&self.view, &self.running, layout, owner, node, access)
    }

    // How far the node is; one that is not there is idle.
    fn phase(&self, node: u32) -> Phase
        ensures { result ≡ phase_of self.now node }
    {
        self.phases
            .get(node as usize)
            .copied()
            .unwrap_or(Phase::Idle)
    }

    /// Whether the node is a begun command.
    pub fn is_begun(&self, node: u32) -> bool
        ensures { result ≡ is_begun (phase_of self.now node) }
    {
        self.phase(node).is_begun()
    }

    pub fn is_done(&self, node: u32) -> bool
        ensures { result ≡ is_done (phase_of self.now node) }
    {
        self.phase(node).is_done()
    }

    /// Whether the node is a begun command that clashed with another node meanwhile.
    pub fn is_marked(&self, node: u32) -> bool
        ensures { result ≡ mark_of self.now node }
    {
        self.marked.get(node as usize).copied().unwrap_or(false)
    }

    /// The value that the timeline of the queue has reached.
    pub fn counter(&self, queue: u32) -> u64
        ensures { result ≡ counter_of self.now queue }
    {
        self.counters.get(queue as usize).copied().unwrap_or(0)
    }

    /// Whether every node is done, host reads too.
    pub fn complete(&self) -> bool
        ensures { (s : State) → Agrees self.now s → IsTrue result ↔ AllDone self.now.view s }
    {
        self.phases.iter().all(|phase| phase.is_done())
    }

    /// A command begins.
    pub fn begin(&mut self, node: u32)
        requires { is_ready self.old node ≡ true }
        ensures view { self.new.view ≡ self.old.view }
        ensures agrees { (s : State) (junk : List ℕ) → Agrees self.old s → Agrees self.new (begun self.old.view s node junk) }
    {
        let marks = hits_running(&self.view, &self.running, node);
        mark(&mut self.marked, &self.view, &self.running, node);
        self.marked.set(node as usize, marks);
        own(&mut self.owners, &self.view, node);
        self.running.add(node);
        self.phases.set(node as usize, Phase::Begun);
    }

    /// A command ends.
    pub fn end(&mut self, node: u32)
        requires { is_begun (phase_of self.old node) ≡ true }
        ensures view { self.new.view ≡ self.old.view }
        ensures agrees { (s : State) (bytes : List ℕ) → Agrees self.old s → Agrees self.new (ended self.old.view s node bytes) }
    {
        self.running.remove(node);
        finish(&mut self.phases, &mut self.spans, &self.view, node);
    }

    /// A barrier, wait or signal takes effect.
    pub fn sync(&mut self, node: u32)
        requires { is_ready self.old node ≡ true }
        ensures view { self.new.view ≡ self.old.view }
        ensures agrees { (s : State) (junk : List ℕ) → Agrees self.old s → Agrees self.new (synced self.old.view s node junk) }
    {
        mark(&mut self.marked, &self.view, &self.running, node);
        lay(&mut self.layouts, &self.view, node);
        own(&mut self.owners, &self.view, node);
        let at = self.view.node(node);
        raise(&mut self.counters, at.queue, at.kind);
        finish(&mut self.phases, &mut self.spans, &self.view, node);
    }

    /// The host reads.
    pub fn host(&mut self, node: u32)
        requires { is_ready self.old node ≡ true }
        ensures view { self.new.view ≡ self.old.view }
        ensures agrees { (s : State) (junk : List ℕ) → Agrees self.old s → Agrees self.new (hosted self.old.view s node junk) }
    {
        mark(&mut self.marked, &self.view, &self.running, node);
        finish(&mut self.phases, &mut self.spans, &self.view, node);
    }
}
