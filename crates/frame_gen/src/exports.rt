//! The exports.

ghost use Rattle.std.specs.Prelude.{◌≡◌, ◌<◌, IfOk, map};
ghost use Rattle.frame_gen.specs.Generated.{spot, is_exported, exported};

use crate::names::spot;
use base::{List, NoMemory};
use frame::Spot;
use std::alloc::Global;

fn is_exported(passes: u32, i: u32) -> bool
    requires { i < passes }
    ensures { result ≡ is_exported passes i }
{
    i % 16 == 15 || i + 1 == passes
}

/// Each sixteenth resource, and the last one.
#[tactic(auto, using(crate::proofs::Walking::chosen_on, crate::proofs::Walking::passed_over))]
pub(crate) fn exports(alloc: Global, passes: u32) -> Result<List<Spot>, NoMemory>
    ensures { IfOk result (λ exports. exports ≡ map spot (exported passes)) }
{
    let mut exports = List::new(alloc);
    for i in 0..passes {
        if is_exported(passes, i) {
            exports.push(spot(i))?;
        }
    }
    Ok(exports)
}
