//! The command `flight`.

ghost use Rattle.std.specs.Prelude.{◌≡◌, IfOk};
ghost use Rattle.device_run.specs.Keepers.{Kept};
ghost use Rattle.flight_file.specs.Plans.{CanFly};
ghost use Rattle.top.specs.Flights.{FliesBytes, reply_of};

use crate::reply::{Reply, still};
use answer::{Answer, AnswerStatus, done};
use base::NoMemory;
use base_io::Gate;
use device_run::Keep;
use flight_file::{FlightPlan, Outcome, fly_file};
use std::alloc::Global;
use std::sync::Wait;
use std::thread::Threads;

fn reply_of(outcome: Outcome) -> Reply
    ensures reply { result ≡ reply_of outcome }
{
    match outcome {
        Outcome::Flown { text, history } => Reply {
            answer: done(text),
            history: Some(history),
        },
        Outcome::Refused { text } => still(Answer {
            status: AnswerStatus::Refused,
            text,
        }),
    }
}

/// The answer to the bytes of a file with a frame on each line.
pub fn flight_file<R: Threads + Wait + Sync, G: Gate + Sync, K: Keep>(
    rt: &R,
    alloc: Global,
    plan: &FlightPlan<'_>,
    bytes: &[u8],
    gate: &G,
    keeper: &mut K,
) -> Result<Reply, NoMemory>
    requires plan { CanFly plan.now }
    ensures file { IfOk result (λ reply. Kept (K.kept keeper.old) (K.kept keeper.new) (λ devices. FliesBytes plan.now.options plan.now.persist.now plan.now.depth bytes.now devices reply)) }
{
    let outcome = fly_file(rt, alloc, plan, bytes, gate, keeper)?;
    Ok(reply_of(outcome))
}
