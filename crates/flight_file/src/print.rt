//! What is printed of a window.

ghost use Rattle.std.specs.Prelude.{◌≡◌, ◌<◌, ◌*◌, ◌+◌, ◌/◌, ◌++◌, ℕ, Some, slice_get, OnOk};
ghost use Rattle.flight.specs.Flights.{window_count};
ghost use Rattle.flight_file.specs.Internal.Flying.{AreWindows, Prints, text_before};
ghost use Rattle.flight_file.specs.Texts.{bytes_alone};
ghost use Rattle.report.specs.Flights.{flight_text};
ghost use Rattle.report.specs.declared.flight.FlightLine.TheVariants as lines;
ghost use Rattle.compile_file.specs.Exports.{exports_text};

use base::{NoMemory, Text};
use device::Device;
use device_run::bytes_of;
use flight::Windows;
use frame::ValidFrame;
use report::{FlightLine, export_text, flight_text};

// The line of frame `i`, and its exports, as the device has left them.
fn add_frame(
    text: &mut Text,
    windows: &Windows<'_>,
    good: &ValidFrame,
    i: u32,
    device: &Device,
) -> Result<(), NoMemory>
    requires there { slice_get windows.now.frames i ≡ Some good.now }
    requires prints { Prints windows.now i device.now }
    ensures { OnOk result (text.new ≡ text.old ++ (flight_text (lines.Frame i) ++ exports_text good.now (bytes_alone windows.now.frames windows.now.persist i good.now))) }
{
    flight_text(text, &FlightLine::Frame { frame: i })?;
    let count = good.exports().len() as u32;
    for k in 0..count {
        export_text(text, good, k, bytes_of(device, windows.export(i, k)))?;
    }
    Ok(())
}

/// Adds the frames of window `w`, whose device has run.
pub(crate) fn add_window(
    text: &mut Text,
    windows: &Windows<'_>,
    frames: &[ValidFrame],
    depth: u32,
    w: u32,
    device: &Device,
) -> Result<(), NoMemory>
    requires windows { AreWindows frames.now depth windows.now }
    requires there { w < window_count windows.now.depth windows.now.frames }
    requires prints { (i : ℕ) → i / windows.now.depth ≡ w → Prints windows.now i device.now }
    requires text { text.old ≡ text_before windows.now (w * windows.now.depth) }
    ensures { OnOk result (text.new ≡ text_before windows.now ((w + 1) * windows.now.depth)) }
{
    let _count = windows.count();
    let from = w * depth;
    let to = (from + depth).min(frames.len() as u32);
    for i in from..to {
        add_frame(text, windows, &frames[i as usize], i, device)?;
    }
    Ok(())
}
