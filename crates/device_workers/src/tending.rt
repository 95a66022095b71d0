//! The tender beside the workers.

ghost use Rattle.std.specs.Prelude.{◌≡◌, ◌<◌, ◌^◌, ℕ, Some, None, length};
ghost use Rattle.device_workers.specs.Holds.{Both, Tends, TendsAll};
ghost use Rattle.device_workers.specs.Parts.{IfTold, OwesAll, PaysAll};

use crate::hold::Mover;
use base::CacheMove;
use device::Device;
use device_cache::{MOVES, Tender};
use device_drive::{has_move, make_move};
use device_model::history_laws;

/// One hold of a tender: it makes the move if one is left and the device has that agent and range, and tells whether it did.
pub fn tend_once(device: &mut Device, cache_move: CacheMove) -> bool
    ensures { Tends device.old device.new cache_move result }
{
    if device.moves_left() == 0 || !has_move(device, cache_move) {
        return false;
    }
    make_move(device, cache_move);
    true
}

/// How many cache moves a run makes: `MOVES` with a seed, and else none.
pub fn moves_of(tend: Option<u64>) -> u32
    ensures seeded { (seed : ℕ) → tend ≡ Some seed → result ≡ 256 }
    ensures none { tend ≡ None → result ≡ 0 }
{
    match tend {
        Some(_) => MOVES,
        None => 0,
    }
}

/// Makes the first `MOVES` moves of the seed's tender, one in each hold, or none where it gives none. It stops at the first move
/// that the hold does not make.
pub fn tend_through<H: Mover>(hold: &mut H, seed: u64, agents: u32, sizes: &[u32])
    requires few { length sizes.now < 2 ^ 32 }
    requires owed { IfTold (H.part hold.old) (OwesAll seed agents sizes.now) }
    ensures tended { TendsAll (H.told hold.old) (H.told hold.new) seed agents sizes.now }
    ensures paid { Both (H.part hold.old) (H.part hold.new) PaysAll }
{
    history_laws();
    let mut tender = Tender::new(seed);
    for _move in 0..MOVES {
        let Some(cache_move) = tender.next(agents, sizes) else {
            return;
        };
        if !hold.tend(cache_move) {
            return;
        }
    }
}
