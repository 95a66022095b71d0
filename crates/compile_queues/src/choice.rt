//! The choice of queues.

ghost use Rattle.std.specs.Prelude.{◌≡◌, ◌≤◌, ◌↔◌, ℕ, length, None, IfOk};
ghost use Rattle.compile_queues.specs.Choice.{DiffersInQueues, IsChoice};
ghost use Rattle.compile_queues.specs.Internal.Chosen.{IsFound};
ghost use Rattle.compile_queues.specs.Cost.{IsFrameCost};
ghost use Rattle.compile_queues.specs.Renamed.{frame_on};
ghost use Rattle.frame.specs.FirstFault.{first_fault};
ghost use Rattle.frame.specs.Numbered.{numbered};
ghost use Rattle.frame_meaning.specs.Meaning.{meaning};
ghost use Rattle.frame_cull.specs.Culled.{Culled};

use crate::best::pick;
use crate::cost::cost_on;
use crate::queues::{frame_on, queues_of};
use crate::work::work_of;
use base::{List, NoMemory};
use frame::{ValidFrame, faultless};
use std::alloc::Global;

/// A frame with its passes on the queues that are picked for them, and what the given frame and it cost: the greatest sum
/// of the costs of commands one of which waits for another.
#[derive(Debug, Drop)]
pub struct Choice {
    pub frame: ValidFrame,
    pub given: u64,
    pub found: u64,
}

// The queues of all passes, and what the frame costs as given and on these.
#[derive(Drop)]
struct Found {
    queues: List<u32>,
    given: u64,
    found: u64,
}

// Pass by pass, in declared order.
fn picked(alloc: Global, frame: &ValidFrame) -> Result<Found, NoMemory>
    ensures { IfOk result (λ f. IsFound (numbered frame.now) (length (numbered frame.now).passes) f.given f.queues f.found) }
{
    let _good = frame.frame();
    let work = work_of(alloc, frame)?;
    let mut queues = queues_of(alloc, frame)?;
    let given = cost_on(alloc, frame, &work, &queues)?;
    let mut found = given;
    for pass in 0..frame.pass_count() {
        let best = pick(alloc, frame, &work, &queues, pass, found)?;
        queues.set(pass as usize, best.queue);
        found = best.cost;
    }
    Ok(Found {
        queues,
        given,
        found,
    })
}

// The frame with its passes on the queues that are picked.
fn moved(alloc: Global, frame: &ValidFrame, found: &Found) -> Result<ValidFrame, NoMemory>
    requires { IsFound (numbered frame.now) (length (numbered frame.now).passes) found.now.given found.now.queues found.now.found }
    ensures { IfOk result (λ chosen. chosen ≡ frame_on found.now.queues frame.now) }
{
    let chosen = frame_on(alloc, frame.frame(), &found.queues)?;
    faultless(alloc, chosen)
}

/// The choice of queues for a frame. The passes are gone through in declared order, and each gets, among the queues that run
/// all its operations, one with the least cost of the whole frame.
pub fn choose(alloc: Global, frame: &ValidFrame) -> Result<Choice, NoMemory>
    ensures choice { IfOk result (λ c. IsChoice frame.now c.frame) }
    ensures good { IfOk result (λ c. first_fault c.frame ≡ None) }
    ensures numbers { IfOk result (λ c. DiffersInQueues (numbered frame.now) (numbered c.frame)) }
    ensures meaning { IfOk result (λ c. (unit : ℕ) → meaning (numbered c.frame) unit ≡ meaning (numbered frame.now) unit) }
    ensures culled { IfOk result (λ c. (p : ℕ) → Culled (numbered c.frame) p ↔ Culled (numbered frame.now) p) }
    ensures given { IfOk result (λ c. IsFrameCost (numbered frame.now) c.given) }
    ensures found { IfOk result (λ c. IsFrameCost (numbered c.frame) c.found) }
    ensures less { IfOk result (λ c. c.found ≤ c.given) }
{
    let _good = frame.frame();
    let found = picked(alloc, frame)?;
    let chosen = moved(alloc, frame, &found)?;
    Ok(Choice {
        frame: chosen,
        given: found.given,
        found: found.found,
    })
}
