//! Who makes the cache moves of a run.

ghost use Rattle.std.specs.Prelude.{◌≡◌, ◌<◌, ◌+◌, ◌^◌, ℕ, suc, [], ◌∷◌, length, IfOk, IfSome, IfNone, MatchBool};
ghost use Rattle.std.specs.Option.{option_map};
ghost use Rattle.device_cache.specs.Draws.{seeded, Moves};
ghost use Rattle.base.specs.declared.event.Event.TheVariants as events;
ghost use Rattle.device_drive.specs.Internal.Keepers.{to_come, Advanced, AsksAlike, Calm, Keeps, Tends};
ghost use Rattle.device_drive.specs.Tended.{tended_moves};
ghost use Rattle.program.specs.Obeys.{IsSmall};

use crate::moves::make_move;
use crate::sizes::sizes_of;
use base::{CacheMove, List, NoMemory};
use device::Device;
use device_cache::Tender;
use program::Program;
use std::alloc::Global;

/// A tender, if there is a seed, with the numbers that it asks for.
#[derive(Drop)]
pub(crate) struct Keeper {
    pub tender: Option<Tender>,
    pub agents: u32,
    pub sizes: List<u32>,
}

fn tender_of(tend: Option<u64>) -> Option<Tender>
    ensures { result ≡ option_map seeded tend }
{
    match tend {
        Some(seed) => Some(Tender::new(seed)),
        None => None,
    }
}

impl Keeper {
    /// The keeper of a seed.
    pub fn new(alloc: Global, program: &Program, tend: Option<u64>) -> Result<Keeper, NoMemory>
        requires small { IsSmall program.now }
        ensures keeps { IfOk result (λ keeper. Keeps keeper program.now) }
        ensures moves { IfOk result (λ keeper. (left : ℕ) → to_come keeper left ≡ tended_moves program.now tend left) }
    {
        Ok(Keeper {
            tender: tender_of(tend),
            agents: 8 * program.queues.len() as u32,
            sizes: sizes_of(alloc, program)?,
        })
    }

    /// The next move of the tender.
    pub fn next(&mut self) -> Option<CacheMove>
        requires few { length self.old.sizes < 2 ^ 32 }
        ensures some { IfSome result (λ m. (left : ℕ) → to_come self.old (suc left) ≡ events.Move m ∷ to_come self.new left) }
        ensures inside { IfSome result (λ m. Moves self.old.agents self.old.sizes m) }
        ensures none { IfNone result ((left : ℕ) → (to_come self.old left ≡ []) × (to_come self.new left ≡ [])) }
        ensures asks { AsksAlike self.old self.new }
    {
        let Some(tender) = &mut self.tender else {
            return None;
        };
        tender.next(self.agents, &self.sizes)
    }

    /// Makes a move, if one is left, and tells whether it did.
    pub fn tend(&mut self, device: &mut Device) -> bool
        requires keeps { Keeps self.old device.old.program }
        ensures advanced { Advanced device.old device.new self.old self.new }
        ensures calm { Calm device.old device.new }
        ensures tends { Tends device.old device.new self.old self.new }
        ensures made { MatchBool result (device.new.moves + 1 ≡ device.old.moves) (to_come self.new device.new.moves ≡ []) }
    {
        if device.moves_left() == 0 {
            return false;
        }
        let Some(cache_move) = self.next() else {
            return false;
        };
        make_move(device, cache_move);
        true
    }
}
