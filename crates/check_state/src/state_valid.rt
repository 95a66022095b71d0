//! The first access that finds another layout or another owner, or half of a transfer without its other half.

ghost use Rattle.std.specs.Prelude.{IfOk, IfSome, MatchOption};
ghost use Rattle.check_access.specs.ValidView.{Listed, ValidView};
ghost use Rattle.check_state.specs.StateValid.{FirstStateHazard, StateValid};

use crate::StateHazard;
use crate::ahead::ahead_of;
use crate::past::Past;
use crate::piece_state::found_at;
use crate::state_hazard_at::state_hazard_at;
use base::NoMemory;
use check_access::{NodeAccess, View};
use std::alloc::Global;

/// What is wrong with the first access that finds another layout than the one that it wants, or another owner than its own
/// family, or that is half of a transfer without its other half.
pub fn first_state_hazard(
    alloc: Global,
    view: &View,
    accesses: &[NodeAccess],
) -> Result<Option<StateHazard>, NoMemory>
    requires shape { ValidView view.now }
    requires listed { Listed view.now accesses.now }
    ensures first { IfOk result (λ first. MatchOption first (StateValid view.now accesses.now) (λ state_hazard. FirstStateHazard view.now accesses.now state_hazard)) }
    ensures refutes { IfOk result (λ first. IfSome first (λ state_hazard. StateValid view.now accesses.now → ⊥)) }
{
    let ahead = ahead_of(alloc, view, accesses)?;
    let mut past = Past::new(alloc, view.piece_count())?;
    for j in 0..accesses.len() {
        let found = found_at(view, &past, &ahead, accesses, j);
        if let Some(state_hazard) = state_hazard_at(view, accesses, j, found) {
            return Ok(Some(state_hazard));
        }
        past.add(accesses[j]);
    }
    Ok(None)
}
