//! The laws of single accesses and of a device.

ghost use Rattle.law_runs.specs.Device.{DeviceSimulates, DeviceProgresses};
ghost use Rattle.law_runs.specs.Laws.{Simulates, Progresses};

/// Of a system that is formed as a program's is (`Formed`) and sound, whatever accesses come and whatever caches do: each load
/// takes, each store leaves, the host reads and the outside finds what it would where all commands run one after another with
/// bytes of their own for each piece; and unless all is done, a load, the stores of a command or a synchronizing node may go on.
/// It does nothing.
pub fn run_laws()
    ensures simulates { Simulates }
    ensures progresses { Progresses }
{}

/// The same of a device that takes all loads of a command when it begins and stores when it ends. It does nothing.
pub fn device_run_laws()
    ensures simulates { DeviceSimulates }
    ensures progresses { DeviceProgresses }
{}
