//! The law of runs on one thread.

ghost use Rattle.std.specs.Prelude.{◌≡◌, ℕ, Option};
ghost use Rattle.device_drive.specs.Driven.{Driven};
ghost use Rattle.device_model.specs.Devices.{Device};

/// A device comes to one end, whatever drives it on one thread: each next event is settled by those before it. It does nothing.
pub fn drive_law()
    ensures one { (old new other : Device) (tend : Option ℕ) → Driven old new tend → Driven old other tend → new ≡ other }
{}
