//! The device of a submission.

ghost use Rattle.std.specs.Prelude.{IfOk};
ghost use Rattle.check_program.specs.Sound.{IsSound};
ghost use Rattle.device_model.specs.Devices.{NoneBegun};

use crate::stopped::Stopped;
use check_program::{Checked, check};
use device::Device;
use device_drive::drive;
use file_program::read_program;
use program::validate_program;
use std::alloc::Global;
use std::thread::Threads;

fn checked(alloc: Global, bytes: &[u8]) -> Result<Checked, Stopped> {
    let Ok(program) = read_program(alloc, bytes) else {
        return Err(Stopped);
    };
    let Ok(shaped) = validate_program(alloc, program) else {
        return Err(Stopped);
    };
    match check(alloc, shaped) {
        Ok(checked) => Ok(checked),
        Err(_) => Err(Stopped),
    }
}

// A device of a sound submission that has done nothing.
#[tactic(auto, using(device_drive::proofs::Calming::fresh_idle))]
fn device_of(alloc: Global, bytes: &[u8]) -> Result<Device, Stopped>
    ensures idle { IfOk result NoneBegun }
    ensures sound { IfOk result (λ device. IsSound device.program) }
{
    let checked = checked(alloc, bytes)?;
    Ok(Device::new(alloc, &checked, 0, 0)?)
}

// To its end.
fn driven<R: Threads + Sync>(rt: &R, alloc: Global, device: &mut Device) -> Result<(), Stopped>
    requires idle { NoneBegun device.old }
    requires sound { IsSound device.old.program }
{
    drive(rt, alloc, device, None)?;
    if device.complete() {
        Ok(())
    } else {
        Err(Stopped)
    }
}

/// Makes the device of a submission, and drives it to its end, if that is asked for.
pub fn make<R: Threads + Sync>(
    rt: &R,
    alloc: Global,
    bytes: &[u8],
    drives: bool,
) -> Result<(), Stopped> {
    let mut device = device_of(alloc, bytes)?;
    if drives {
        driven(rt, alloc, &mut device)
    } else {
        Ok(())
    }
}
