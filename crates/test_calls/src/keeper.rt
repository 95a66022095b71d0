//! A keeper of all devices.

use base::NoMemory;
use std::alloc::Global;
use top::{Keep, RanDevice};

/// Keeps each device that it is handed.
#[derive(Drop)]
pub struct KeepAll {
    devices: Vec<RanDevice>,
}

impl KeepAll {
    /// No device yet.
    pub fn new(alloc: Global) -> KeepAll {
        KeepAll {
            devices: Vec::new(alloc),
        }
    }

    /// The devices, in the order in which they came.
    pub fn devices(&self) -> &[RanDevice] {
        self.devices.as_slice()
    }
}

impl Keep for KeepAll {
    ghost use Rattle.std.specs.Prelude.{Some};

    ghost kept = { λ keeper. Some keeper.devices.items };

    fn keep(&mut self, ran: RanDevice) -> Result<(), NoMemory> {
        self.devices.push(ran)?;
        Ok(())
    }
}
