//! Events that begin no command, made on a device where they are enabled.

ghost use Rattle.std.specs.Prelude.{◌≡◌, ◌<◌, true};
ghost use Rattle.device_audit.specs.Internal.Following.{is_quiet, Follows, Holds, Lands, Quiet};
ghost use Rattle.base.specs.declared.event.Event.TheVariants as events;
ghost use Rattle.device_model.specs.Devices.{IsComplete};
ghost use Rattle.device_model.specs.Histories.{is_move};

use crate::enabled::{may_move, may_read, may_sync};
use base::{CacheMove, Event};
use device::{Device, Finished, Landed};
use device_drive::readback_of;
use device_model::{event_laws, round_laws};

/// The event End of a computed command.
pub(crate) fn end(device: &mut Device, done: Finished) -> bool
    ensures follows { Follows device.old device.new (events.End done.node) result }
    ensures lands { Lands device.old device.new done.node }
{
    event_laws();
    match device.end(done) {
        Landed::Done => true,
        Landed::NotBegun => false,
    }
}

// The event Sync.
fn sync(device: &mut Device, node: u32) -> bool
    ensures follows { Follows device.old device.new (events.Sync node) result }
    ensures quiet { Quiet device.old device.new }
{
    event_laws();
    if !may_sync(device, node) {
        return false;
    }
    device.sync(node);
    true
}

// The event Host.
fn host(device: &mut Device, node: u32) -> bool
    ensures follows { Follows device.old device.new (events.Host node) result }
    ensures quiet { Quiet device.old device.new }
{
    event_laws();
    if !may_read(device, node) {
        return false;
    }
    let readback = readback_of(device, node);
    device.host(readback);
    true
}

// A cache move.
fn move_lines(device: &mut Device, cache_move: CacheMove) -> bool
    requires { 0 < device.old.moves }
    ensures follows { Follows device.old device.new (events.Move cache_move) result }
    ensures quiet { Quiet device.old device.new }
{
    round_laws();
    if !may_move(device, cache_move) {
        return false;
    }
    device.move_lines(cache_move);
    true
}

/// An event that begins no command, and ends none.
pub(crate) fn make(device: &mut Device, event: &Event) -> bool
    requires quiet { is_quiet event.now ≡ true }
    requires moves { is_move event.now ≡ true → 0 < device.old.moves }
    ensures follows { Follows device.old device.new event.now result }
    ensures quiet { Quiet device.old device.new }
{
    match *event {
        Event::Begin { .. } | Event::End { .. } => unreachable!(),
        Event::Sync { node } => sync(device, node),
        Event::Host { node } => host(device, node),
        Event::Move(cache_move) => move_lines(device, cache_move),
    }
}

/// Ends all that is begun, so that the device may be let go. Where all is done nothing changes.
pub(crate) fn end_all(device: &mut Device, mut begun: Vec<Finished>)
    requires { Holds device.old begun.items }
    ensures program { device.new.program ≡ device.old.program }
    ensures same { IsComplete device.old → device.new ≡ device.old }
{
    while let Some(done) = begun.pop() {
        let _ended = end(device, done);
    }
    begun.destroy_empty();
}
