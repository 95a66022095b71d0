//! What is persisted from one window to the next.

ghost use Rattle.std.specs.Prelude.{◌≡◌, ◌<◌, OnOk};
ghost use Rattle.flight.specs.Alone.{persisted_next};
ghost use Rattle.flight.specs.Exported.{persisted_export};
ghost use Rattle.flight.specs.Flights.{window_count};
ghost use Rattle.flight_file.specs.Internal.Flying.{CanRead};
ghost use Rattle.device_run.specs.Runs.{read_by};

use base::{List, NoMemory};
use device::Device;
use device_run::bytes_of;
use flight::Windows;
use std::alloc::Global;

/// Holds what window `w` has left on its device, for each persisting name that a frame of the window has.
pub(crate) fn hold(
    alloc: Global,
    windows: &Windows<'_>,
    w: u32,
    device: &Device,
    persisted: &mut List<Option<List<u8>>>,
) -> Result<(), NoMemory>
    requires there { w < window_count windows.now.depth windows.now.frames }
    requires read { CanRead windows.now w persisted.old device.now }
    ensures { OnOk result (persisted.new ≡ persisted_next (persisted_export windows.now.frames windows.now.persist windows.now.depth w) (read_by device.now) 0 persisted.old) }
{
    let _fly = windows.count();
    for k in 0..persisted.len() {
        if let Some(place) = windows.holds(w, k as u32) {
            let bytes = List::from_slice(alloc, bytes_of(device, place))?;
            persisted.set(k, Some(bytes));
        }
    }
    Ok(())
}
