//! What is in the exported units after all passes.

ghost use Rattle.std.specs.Prelude.{◌≡◌, ◌<◌, [], true, Some, is_some, length, IfOk, OnOk};
ghost use Rattle.std.specs.List.{All};
ghost use Rattle.base.specs.Applied.{bytes_at};
ghost use Rattle.frame.specs.Numbered.{numbered};
ghost use Rattle.frame_meaning.specs.Internal.Held.{IsAt, all_settled};
ghost use Rattle.frame_meaning.specs.Meaning.{meaning};

use crate::bytes::Bytes;
use base::NoMemory;
use frame::ValidFrame;
use std::alloc::Global;
use std::marker::Model;

/// The bytes of the exported units after all passes. Other units may have none.
#[derive(Drop)]
pub struct Exports {
    held: Bytes,
}

impl Model for Exports {
    ghost use Rattle.std.specs.Prelude.{ℕ, List};

    ghost Value = { List (List ℕ) };

    ghost view = { λ e. e.held };
}

impl Exports {
    pub fn get(&self, unit: u32) -> &[u8]
        requires { unit < length self.now }
        ensures { result.now ≡ bytes_at self.now unit }
    {
        self.held.get(unit)
    }
}

// All passes in declared order.
fn after_passes(alloc: Global, frame: &ValidFrame) -> Result<Bytes, NoMemory>
    ensures { IfOk result (λ held. IsAt (numbered frame.now) [] held) }
{
    let mut held = Bytes::none(alloc, frame.unit_count())?;
    for pass in 0..frame.pass_count() {
        held.run_pass(alloc, frame, pass)?;
    }
    Ok(held)
}

fn settle_all(
    held: &mut Bytes,
    alloc: Global,
    frame: &ValidFrame,
    units: &[u32],
) -> Result<(), NoMemory>
    requires units { All (λ unit. unit < length (numbered frame.now).units) units.now }
    requires count { length held.old ≡ length (numbered frame.now).units }
    ensures { OnOk result (held.new ≡ all_settled (numbered frame.now).units held.old units.now) }
{
    for unit in units {
        held.settle(alloc, frame, *unit)?;
    }
    Ok(())
}

/// The exports after all operations of all passes in declared order. A unit has bytes only from the operation that
/// first names it to the last that does, so this takes less memory than all pictures.
pub fn exports_of(alloc: Global, frame: &ValidFrame) -> Result<Exports, NoMemory>
    ensures count { IfOk result (λ exports. length exports ≡ length (numbered frame.now).units) }
    ensures bytes { IfOk result (λ exports. All (λ unit. meaning (numbered frame.now) unit ≡ Some (bytes_at exports unit)) (numbered frame.now).exports) }
    // What is exported has contents.
    ensures exported { All (λ unit. is_some (meaning (numbered frame.now) unit) ≡ true) (numbered frame.now).exports }
{
    let exports = frame.exports();
    let mut held = after_passes(alloc, frame)?;
    settle_all(&mut held, alloc, frame, exports)?;
    Ok(Exports { held })
}
