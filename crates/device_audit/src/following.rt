//! A trace is followed on a device.

ghost use Rattle.std.specs.Prelude.{◌≡◌, ◌≤◌, ◌<◌, ◌^◌, length, IfOk, IfSome, IfNone};
ghost use Rattle.device_audit.specs.Internal.Following.{at_place};
ghost use Rattle.device_audit.specs.Runs.{IsFirstStray};
ghost use Rattle.device_model.specs.Coming.{AreEnabled};
ghost use Rattle.device_model.specs.Histories.{moves_in};

use crate::follower::Follower;
use base::{Event, NoMemory};
use device_model::is_move;
use std::alloc::Global;
use std::thread::Threads;

/// How many of the events are cache moves.
pub(crate) fn count_moves(events: &[Event]) -> u32
    requires { length events.now < 2 ^ 32 }
    ensures { result ≡ length (moves_in events.now) }
{
    events.iter().filter(|event| is_move(event)).count() as u32
}

/// Makes the events one after another, as long as they are enabled. The place of the first that is not.
pub(crate) fn follow_all<R: Threads + Sync>(
    rt: &R,
    alloc: Global,
    follower: &mut Follower,
    events: &[Event],
) -> Result<Option<u32>, NoMemory>
    requires few { length events.now ≤ 65536 }
    requires start { follower.old ≡ at_place follower.old.program events.now 0 }
    ensures stray { IfOk result (λ end. IfSome end (IsFirstStray follower.old.program events.now)) }
    ensures enabled { IfOk result (λ end. IfNone end (AreEnabled follower.old.program 0 events.now (length events.now))) }
    ensures all { IfOk result (λ end. IfNone end (follower.new ≡ at_place follower.old.program events.now (length events.now))) }
{
    for (at, event) in events.iter().enumerate() {
        if !follower.follow(rt, alloc, event)? {
            return Ok(Some(at as u32));
        }
    }
    Ok(None)
}
