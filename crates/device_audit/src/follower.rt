//! A device on which the events of a trace come one after another.

ghost use Rattle.std.specs.Prelude.{◌≡◌, ◌==◌, ◌<◌, true, IfOk};
ghost use Rattle.std.specs.List.{position};
ghost use Rattle.device_audit.specs.Internal.Following.{is_quiet, Follows};
ghost use Rattle.base.specs.declared.event.Event.TheVariants as events;
ghost use Rattle.device_model.specs.Devices.{fresh, IsComplete};
ghost use Rattle.device_model.specs.Histories.{is_move};

use crate::enabled::may_begin;
use crate::making::{end, end_all, make};
use base::{Event, NoMemory};
use check_program::Checked;
use device::{Device, Finished};
use device_model::event_laws;
use rayon::current_num_threads;
use std::alloc::Global;
use std::marker::Model;
use std::thread::Threads;

/// A device, and the commands that are begun on it. They are computed as they begin, and cannot be let go.
pub(crate) struct Follower {
    device: Device,
    begun: Vec<Finished>,
}

impl Model for Follower {
    ghost use Rattle.device_audit.specs.Internal.Followers.{device_in, HoldsBegun};
    ghost use Rattle.device_model.specs.Devices.{Device};

    ghost Value = { Device };

    ghost view = { device_in };

    ghost invariant = { HoldsBegun };
}

// The place of a command of the node.
fn place_of(begun: &[Finished], node: u32) -> Option<usize>
    ensures { result ≡ position (λ c. c.node == node) begun.now }
{
    begun.iter().position(|done| done.command().node == node)
}

// A device on which nothing has happened, which lends as many threads as there are processors.
fn opened<R: Threads>(
    rt: &R,
    alloc: Global,
    program: &Checked,
    moves: u32,
    places: &[(u32, u32)],
) -> Result<Device, NoMemory>
    ensures { IfOk result (λ device. device ≡ fresh program.now.program 0 moves) }
{
    let mut device = Device::with_places(alloc, program, 0, moves, places)?;
    device.lend_threads(current_num_threads(rt));
    Ok(device)
}

impl Follower {
    /// A device on which nothing has happened, with room for so many cache moves, which begin and end at these places.
    pub fn new<R: Threads>(
        rt: &R,
        alloc: Global,
        program: &Checked,
        moves: u32,
        places: &[(u32, u32)],
    ) -> Result<Follower, NoMemory>
        ensures { IfOk result (λ follower. follower ≡ fresh program.now.program 0 moves) }
    {
        event_laws();
        let device = opened(rt, alloc, program, moves, places)?;
        Ok(Follower {
            device,
            begun: Vec::new(alloc),
        })
    }

    fn begin<R: Threads + Sync>(
        &mut self,
        rt: &R,
        alloc: Global,
        node: u32,
    ) -> Result<bool, NoMemory>
        ensures { IfOk result (Follows self.old self.new (events.Begin node)) }
    {
        event_laws();
        if !may_begin(&self.device, node) {
            return Ok(false);
        }
        self.begun.reserve(1)?;
        let job = self.device.begin(alloc, node)?;
        self.begun.push_reserved(job.compute(rt));
        Ok(true)
    }

    fn end(&mut self, node: u32) -> bool
        ensures { Follows self.old self.new (events.End node) result }
    {
        match place_of(&self.begun, node) {
            Some(place) => {
                let done = self.begun.swap_remove(place);
                end(&mut self.device, done)
            }
            None => false,
        }
    }

    fn make(&mut self, event: &Event) -> bool
        requires quiet { is_quiet event.now ≡ true }
        requires moves { is_move event.now ≡ true → 0 < self.old.moves }
        ensures { Follows self.old self.new event.now result }
    {
        make(&mut self.device, event)
    }

    /// Makes the event, if it is enabled, and tells whether it is.
    pub fn follow<R: Threads + Sync>(
        &mut self,
        rt: &R,
        alloc: Global,
        event: &Event,
    ) -> Result<bool, NoMemory>
        requires { is_move event.now ≡ true → 0 < self.old.moves }
        ensures { IfOk result (Follows self.old self.new event.now) }
    {
        match *event {
            Event::Begin { node } => self.begin(rt, alloc, node),
            Event::End { node } => Ok(self.end(node)),
            Event::Sync { .. } | Event::Host { .. } | Event::Move(_) => Ok(self.make(event)),
        }
    }

    /// The device, on which all that was begun has ended.
    pub fn into_device(self) -> Device
        ensures program { result.program ≡ self.program }
        ensures same { IsComplete self → result ≡ self }
    {
        let Follower { mut device, begun } = self;
        end_all(&mut device, begun);
        device
    }
}
