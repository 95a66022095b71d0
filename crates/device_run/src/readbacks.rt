//! What the host has read of a device.

ghost use Rattle.std.specs.Prelude.{◌≡◌, ◌<◌, length};
ghost use Rattle.device_run.specs.Runs.{read_by};
ghost use Rattle.device_model.specs.Devices.{IsComplete};

use device::Device;

/// The bytes of a read-back of a device that has run to its end.
pub fn bytes_of(device: &Device, k: u32) -> &[u8]
    requires complete { IsComplete device.now }
    requires there { k < length device.now.program.readbacks }
    ensures { result.now ≡ read_by device.now k }
{
    let _node = device.read_node(k);
    match device.readback(k) {
        Some(bytes) => bytes,
        None => unreachable!(),
    }
}
