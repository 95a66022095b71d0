//! The exports of a window.

ghost use Rattle.std.specs.Prelude.{◌≡◌, ◌≤◌, ◌<◌, IfOk, length, map};
ghost use Rattle.std.specs.List.{list_any};
ghost use Rattle.std.specs.Str.{bytes_eq};
ghost use Rattle.flight.specs.Internal.Left.{other_by, others_by};
ghost use Rattle.flight.specs.Internal.WindowParts.{all_exports};
ghost use Rattle.law_window.specs.Names.{rename_in};
ghost use Rattle.law_window.specs.Passes.{renamed_spot};

use crate::spots::renamed_spots;
use base::{List, Name, NoMemory};
use frame::{Spot, ValidFrame};
use std::alloc::Global;

fn exports_of(alloc: Global, i: usize, good: &ValidFrame) -> Result<List<Spot>, NoMemory>
    requires { i < 10 }
    ensures { IfOk result (λ exports. exports ≡ map (renamed_spot (rename_in i good.now)) good.now.exports) }
{
    let frame = good.frame();
    renamed_spots(alloc, i, frame, &frame.exports)
}

/// The exports of the frames, in their order.
#[tactic(auto, using(crate::proofs::Frames::exports_on, crate::proofs::Frames::exports_end))]
pub(crate) fn all_exports(alloc: Global, frames: &[ValidFrame]) -> Result<List<Spot>, NoMemory>
    requires { length frames.now ≤ 8 }
    ensures { IfOk result (λ exports. exports ≡ all_exports 0 frames.now) }
{
    let mut exports = List::new(alloc);
    for (i, good) in frames.iter().enumerate() {
        let more = exports_of(alloc, i, good)?;
        exports.extend_from_slice(&more)?;
    }
    Ok(exports)
}

fn has_name(spots: &[Spot], name: Name) -> bool
    ensures { result ≡ list_any (λ spot. bytes_eq name spot.name) spots.now }
{
    spots.iter().any(|spot| name == spot.name)
}

fn other_by(own: &[Spot], name: Option<Name>) -> Option<Spot>
    ensures { result ≡ other_by own.now name }
{
    let name = name?;
    if has_name(own, name) {
        return None;
    }
    Some(Spot { name, layer: None })
}

/// The resources that are left under persisting names and are not among these spots.
#[tactic(auto, using(crate::proofs::Frames::other_on, crate::proofs::Frames::known_on, crate::proofs::Frames::others_end))]
pub(crate) fn others(
    alloc: Global,
    own: &[Spot],
    left: &[Option<Name>],
) -> Result<List<Spot>, NoMemory>
    ensures { IfOk result (λ others. others ≡ others_by own.now left.now) }
{
    let mut others = List::new(alloc);
    for (k, _) in left.iter().enumerate() {
        if let Some(spot) = other_by(own, left[k]) {
            others.push(spot)?;
        }
    }
    Ok(others)
}
