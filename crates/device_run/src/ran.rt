//! A device that has run.

ghost use Rattle.std.specs.Prelude.{◌≡◌};
ghost use Rattle.device_model.specs.Coming.{AllCame};
ghost use Rattle.device_model.specs.Devices.{IsComplete};

use device::Device;
use std::marker::Model;

/// A device that has run a program to its end. Only this crate makes one, of a device that has.
#[derive(Drop)]
pub struct RanDevice {
    device: Device,
}

impl Model for RanDevice {
    ghost use Rattle.device_model.specs.Devices.{Device};
    ghost use Rattle.device_run.specs.Runs.{HasEnded};

    ghost Value = { Device };

    ghost view = { λ ran. ran.device };

    ghost invariant = { λ ran. HasEnded ran.device };
}

impl RanDevice {
    pub(crate) fn new(device: Device) -> RanDevice
        requires came { AllCame device }
        requires complete { IsComplete device }
        ensures { result ≡ device }
    {
        RanDevice { device }
    }

    /// The device, each event of whose history could come in its turn, with all nodes done.
    pub fn device(&self) -> &Device
        ensures device { result.now ≡ self.now }
        ensures came { AllCame self.now }
        ensures complete { IsComplete self.now }
    {
        &self.device
    }
}
