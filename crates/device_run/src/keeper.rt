//! Who is handed the devices that have run.

ghost use Rattle.std.specs.Prelude.{[], ◌∷◌, None, OnOk};

use crate::ran::RanDevice;
use base::NoMemory;

/// Is handed devices that have run, one after another, and owns them from then on.
pub trait Keep {
    ghost use Rattle.std.specs.Prelude.{List};
    ghost use Rattle.std.specs.declared.option.Option.{Option};
    ghost use Rattle.device_model.specs.Devices.{Device};
    ghost use Rattle.device_run.specs.Keepers.{KeptDevices};

    /// The devices that it was handed, in their order, where the keeper tells them.
    ghost kept: { Self → Option (List Device) };

    /// Takes the device. Its only error is want of memory; nothing is said of a keeper that found none.
    fn keep(&mut self, ran: RanDevice) -> Result<(), NoMemory>
        ensures { OnOk result (KeptDevices (kept self.old) (kept self.new) (ran ∷ [])) };
}

/// A keeper that lets go what it is handed, and tells nothing.
#[derive(Clone, Copy, Debug, PartialEq, Eq)]
pub struct KeepNone;

impl Keep for KeepNone {
    ghost kept = { λ _. None };

    fn keep(&mut self, ran: RanDevice) -> Result<(), NoMemory> {
        drop(ran);
        Ok(())
    }
}
