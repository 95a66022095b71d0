//! An answer is delivered: taps are told what devices did for it, and its text is written.

ghost use Rattle.std.specs.Prelude.{◌≡◌, ◌⊎◌, ◌≤◌, [], vec_len, vec_capacity, IfOk};
ghost use Rattle.top.specs.Causes.{WriteCause};
ghost use Rattle.answer.specs.Statuses.{status_of};
ghost use Rattle.top.specs.Outcomes.{EndsAs};
ghost use Rattle.top.specs.Told.{AreTold};

use crate::output::put;
use crate::reply::Reply;
use crate::{Ended, Status};
use base::{Event, List, NoMemory};
use base_io::{Sink, Tap, serve_all};
use std::alloc::Global;

/// No tap is spent.
pub fn untold(alloc: Global, status: Status) -> Ended
    ensures status { result.status ≡ status }
    ensures spent { result.spent.items ≡ [] }
    ensures places { result.places.items ≡ [] }
{
    Ended {
        status,
        spent: Vec::new(alloc),
        places: Vec::new(alloc),
    }
}

/// The same, with room for so many taps.
pub fn reserved(alloc: Global, count: usize) -> Result<Ended, NoMemory>
    ensures status { IfOk result (λ ended. ended.status ≡ Status.NoMemory) }
    ensures spent { IfOk result (λ ended. (ended.spent.items ≡ []) × (count ≤ vec_capacity ended.spent)) }
    ensures places { IfOk result (λ ended. (ended.places.items ≡ []) × (count ≤ vec_capacity ended.places)) }
{
    Ok(Ended {
        status: Status::NoMemory,
        spent: Vec::with_capacity(alloc, count)?,
        places: Vec::with_capacity(alloc, count)?,
    })
}

// The taps are told what devices did, if any ran.
fn tell(
    history: &Option<List<Event>>,
    taps: &mut Vec<Box<dyn Tap>>,
    spent: &mut Vec<Box<dyn Tap>>,
    places: &mut Vec<usize>,
)
    requires no_spent { spent.old.items ≡ [] }
    requires no_places { places.old.items ≡ [] }
    requires spent_room { vec_len taps.old ≤ vec_capacity spent.old }
    requires places_room { vec_len taps.old ≤ vec_capacity places.old }
    ensures { AreTold (λ b. heard b) (λ b. finished b) taps.old.items taps.new.items spent.new.items places.new.items history.now }
{
    if let Some(history) = history {
        serve_all(taps, spent, places, history.as_slice());
    }
}

/// Tells the taps what devices did for a reply, and writes its text. A write fault takes the place of its status.
pub fn deliver<O: Sink>(
    reply: &Reply,
    output: &mut O,
    taps: &mut Vec<Box<dyn Tap>>,
    room: Ended,
) -> Ended
    requires spent { (room.spent.items ≡ []) × (vec_len taps.old ≤ vec_capacity room.spent) }
    requires places { (room.places.items ≡ []) × (vec_len taps.old ≤ vec_capacity room.places) }
    ensures told { AreTold (λ b. heard b) (λ b. finished b) taps.old.items taps.new.items result.spent.items result.places.items reply.now.history }
    ensures ends { EndsAs reply.now.answer.status reply.now.answer.text (O.taken output.old) (O.taken output.new) result.status }
    ensures cause { WriteCause (O.faults output.old) (O.faults output.new) result.status }
    ensures either { (result.status ≡ status_of reply.now.answer.status) ⊎ (result.status ≡ Status.WriteFault) }
{
    let Ended {
        status: _,
        mut spent,
        mut places,
    } = room;
    tell(&reply.history, taps, &mut spent, &mut places);
    let status = put(output, reply.answer.status, reply.answer.text.as_slice());
    Ended {
        status,
        spent,
        places,
    }
}
