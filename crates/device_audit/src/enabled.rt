//! Whether a device can make an event.

ghost use Rattle.std.specs.Prelude.{◌≡◌, ◌&&◌, ◌+◌, nat_le, slice_get, false};
ghost use Rattle.std.specs.Option.{option_map_or};
ghost use Rattle.check_order.specs.Edges.{is_host, is_sync};
ghost use Rattle.device_model.specs.Devices.{is_ready, view_in};
ghost use Rattle.device_model.specs.Ready.{is_command, kind_at};
ghost use Rattle.device_model.specs.Steps.{may_move};
ghost use Rattle.program.specs.Limits.{memory_bytes};

use base::{CacheMove, MemoryRange};
use check_order::Kind;
use device::Device;
use device_drive::size_of;
use program::Program;

/// Whether the node is a command that may begin.
pub(crate) fn may_begin(device: &Device, node: u32) -> bool
    ensures { result ≡ (is_command (kind_at (view_in device.now) node) && is_ready device.now node) }
{
    if node >= device.node_count() {
        return false;
    }
    matches!(device.kind(node), Kind::Command) && device.ready(node)
}

/// Whether the node is a barrier, wait or signal that may take effect.
pub(crate) fn may_sync(device: &Device, node: u32) -> bool
    ensures { result ≡ (is_sync (kind_at (view_in device.now) node) && is_ready device.now node) }
{
    if node >= device.node_count() {
        return false;
    }
    device.kind(node).is_sync() && device.ready(node)
}

/// Whether the node is a host read that may come.
pub(crate) fn may_read(device: &Device, node: u32) -> bool
    ensures { result ≡ (is_host (kind_at (view_in device.now) node) && is_ready device.now node) }
{
    if node >= device.node_count() {
        return false;
    }
    device.kind(node).is_host() && device.ready(node)
}

// Whether the program has the memory and the range in it.
fn has_range(program: &Program, range: MemoryRange) -> bool
    ensures { result ≡ option_map_or (λ m. nat_le (range.start + range.len) (memory_bytes m)) (slice_get program.now.memories range.memory) false }
{
    match program.memories.get(range.memory as usize) {
        Some(memory) => range.start as usize + range.len as usize <= size_of(memory),
        None => false,
    }
}

/// Whether the cache move is one of an agent that the device has, in a range that it has. The range may be empty.
pub(crate) fn may_move(device: &Device, cache_move: CacheMove) -> bool
    ensures { result ≡ may_move device.now.program cache_move }
{
    let program = device.program().program();
    (cache_move.agent as usize) < 8 * program.queues.len() && has_range(program, cache_move.range)
}
