//! A run on one thread.

ghost use Rattle.std.specs.Prelude.{◌≡◌, [], OnOk};
ghost use Rattle.check_program.specs.Sound.{IsSound};
ghost use Rattle.device_drive.specs.Driven.{after_moves, Driven};
ghost use Rattle.device_drive.specs.Internal.Keepers.{to_come, Advanced, Calm, Keeps, Leads};
ghost use Rattle.device_drive.specs.Tended.{Grew, Tended};
ghost use Rattle.device_model.specs.Devices.{IsComplete, NoneBegun};

use crate::keeper::Keeper;
use crate::round::{next_node, run_node};
use base::NoMemory;
use device::Device;
use std::alloc::Global;
use std::thread::Threads;

// All nodes.
fn run_all<R: Threads + Sync>(
    rt: &R,
    alloc: Global,
    device: &mut Device,
    keeper: &mut Keeper,
) -> Result<(), NoMemory>
    requires keeps { Keeps keeper.old device.old.program }
    requires idle { NoneBegun device.old }
    requires sound { IsSound device.old.program }
    ensures advanced { Advanced device.old device.new keeper.old keeper.new }
    ensures complete { OnOk result (IsComplete device.new) }
    ensures leads { OnOk result (Leads device.old keeper.old (after_moves device.new (to_come keeper.new device.new.moves))) }
{
    while let Some(node) = next_node(device) {
        run_node(rt, alloc, device, keeper, node)?;
    }
    Ok(())
}

// All moves that are left.
fn finish(device: &mut Device, keeper: &mut Keeper)
    requires keeps { Keeps keeper.old device.old.program }
    ensures advanced { Advanced device.old device.new keeper.old keeper.new }
    ensures calm { Calm device.old device.new }
    ensures none { to_come keeper.new device.new.moves ≡ [] }
    ensures all { device.new ≡ after_moves device.old (to_come keeper.old device.old.moves) }
{
    for _move in 0..device.moves_left() {
        if !keeper.tend(device) {
            return;
        }
    }
}

/// Runs a device until each node is done: again and again the least ready node of the first queue that has one, and the host
/// reads after all queues. With a seed a cache move is made before each event of a node while moves are left, and the others at
/// the end (`driven`).
pub fn drive<R: Threads + Sync>(
    rt: &R,
    alloc: Global,
    device: &mut Device,
    tend: Option<u64>,
) -> Result<(), NoMemory>
    requires idle { NoneBegun device.old }
    requires sound { IsSound device.old.program }
    ensures complete { OnOk result (IsComplete device.new) }
    ensures grew { Grew device.old device.new }
    ensures tended { OnOk result (Tended device.old device.new tend) }
    ensures driven { OnOk result (Driven device.old device.new tend) }
{
    let mut keeper = Keeper::new(alloc, device.program().program(), tend)?;
    run_all(rt, alloc, device, &mut keeper)?;
    finish(device, &mut keeper);
    Ok(())
}
