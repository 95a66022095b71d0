//! The cache moves of a device.

ghost use Rattle.std.specs.Prelude.{◌≡◌, ◌<◌, ◌↔◌, IsTrue};
ghost use Rattle.base.specs.declared.event.Event.TheVariants as events;
ghost use Rattle.device_cache.specs.Draws.{Moves};
ghost use Rattle.device_drive.specs.Tended.{agents_of, sizes_of};
ghost use Rattle.device_model.specs.Histories.{moved};

use crate::sizes::size_of;
use base::CacheMove;
use device::Device;

/// Whether the device has the agent and the range, and the range has a byte.
pub fn has_move(device: &Device, cache_move: CacheMove) -> bool
    ensures { IsTrue result ↔ Moves (agents_of device.now.program) (sizes_of device.now.program) cache_move }
{
    let program = device.program().program();
    let range = cache_move.range;
    let Some(memory) = program.memories.get(range.memory as usize) else {
        return false;
    };
    (cache_move.agent as usize) < 8 * program.queues.len()
        && range.len > 0
        && range.start as usize + range.len as usize <= size_of(memory)
}

/// Makes a cache move.
pub fn make_move(device: &mut Device, cache_move: CacheMove)
    requires left { 0 < device.old.moves }
    requires inside { Moves (agents_of device.old.program) (sizes_of device.old.program) cache_move }
    ensures { device.new ≡ moved device.old (events.Move cache_move) }
{
    device.move_lines(cache_move);
}
