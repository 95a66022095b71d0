//! Whether a device has made the cache moves of a seed.

ghost use Rattle.std.specs.Prelude.{◌≡◌, ◌<◌, ◌^◌, ◌↔◌, [], length, IsTrue, IfOk, MatchBool};
ghost use Rattle.device_drive.specs.Internal.Following.{Follows, Makes, Strays};
ghost use Rattle.device_drive.specs.Tended.{tended_moves};
ghost use Rattle.device_model.specs.Histories.{moves_in};

use crate::keeper::Keeper;
use base::{Event, NoMemory};
use check_program::Checked;
use device::Device;
use device_cache::MOVES;
use std::alloc::Global;

// Whether the event is the keeper's next move, or none at all.
fn takes(keeper: &mut Keeper, left: &mut u32, event: &Event) -> bool
    requires few { length keeper.old.sizes < 2 ^ 32 }
    ensures follows { MatchBool result (Follows event.now keeper.old left.old keeper.new left.new) (Strays event.now keeper.old left.old) }
    ensures few { length keeper.new.sizes < 2 ^ 32 }
{
    let Event::Move(cache_move) = event else {
        return true;
    };
    if *left == 0 {
        return false;
    }
    *left -= 1;
    match keeper.next() {
        Some(next) => next == *cache_move,
        None => false,
    }
}

// Whether no move is still to come.
fn is_over(keeper: &mut Keeper, left: u32) -> bool
    requires few { length keeper.old.sizes < 2 ^ 32 }
    ensures { IsTrue result ↔ Makes [] keeper.old left }
{
    if left == 0 {
        return true;
    }
    keeper.next().is_none()
}

// Whether the moves among the events are the next ones of the keeper, so many of them.
fn follow(keeper: &mut Keeper, events: &[Event], count: u32) -> bool
    requires few { length keeper.old.sizes < 2 ^ 32 }
    ensures { IsTrue result ↔ Makes events.now keeper.old count }
{
    let mut left = count;
    for event in events {
        if !takes(keeper, &mut left, event) {
            return false;
        }
    }
    is_over(keeper, left)
}

/// Whether the cache moves in the history of a device are the first `MOVES` of the seed's tender for the program; none without
/// a seed, or where that tender gives none.
pub fn tended(
    alloc: Global,
    program: &Checked,
    device: &Device,
    tend: Option<u64>,
) -> Result<bool, NoMemory>
    ensures { IfOk result (λ is. IsTrue is ↔ (moves_in device.now.history ≡ tended_moves program.now.program tend 256)) }
{
    let mut keeper = Keeper::new(alloc, program.shaped().program(), tend)?;
    Ok(follow(&mut keeper, device.history(), MOVES))
}
