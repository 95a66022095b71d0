//! Commands of devices are counted.

use crate::Meter;
use base_io::Gate;

/// A gate that counts the commands that were computed.
#[derive(Clone, Copy)]
pub struct MeterGate<'a> {
    meter: &'a Meter,
}

impl<'a> MeterGate<'a> {
    /// A gate that counts for this meter.
    pub fn new(meter: &'a Meter) -> MeterGate<'a> {
        MeterGate { meter }
    }
}

impl Gate for MeterGate<'_> {
    fn enter(&self, _node: u32) {}

    fn leave(&self, _node: u32) {
        self.meter.end_command();
    }
}
