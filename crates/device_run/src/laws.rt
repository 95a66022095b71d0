//! Laws of devices that have run.

ghost use Rattle.std.specs.Prelude.{map};
ghost use Rattle.device_model.specs.Coming.{AllCame};
ghost use Rattle.device_model.specs.Devices.{Device, IsComplete, opening, told};
ghost use Rattle.device_run.specs.EveryRun.{IsRun};

/// What has happened on a device that has run to its end is one of the runs of which `HasRun` speaks. It does nothing.
pub fn own_run_law()
    ensures { (d : Device) → AllCame d → IsComplete d → IsRun d.program (opening d.program d.fill) (map (told d.fill) d.history) }
{}
