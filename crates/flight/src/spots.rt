//! Spots under the names of a window.

ghost use Rattle.std.specs.Prelude.{◌≡◌, ◌<◌, IfOk, map};
ghost use Rattle.law_window.specs.Names.{rename_in};
ghost use Rattle.law_window.specs.Passes.{renamed_spot};

use crate::holders::holder_in;
use crate::names::numbered_name;
use base::{List, Name, NoMemory};
use frame::{Frame, Spot};
use std::alloc::Global;

fn rename_in(i: usize, frame: &Frame, name: Name) -> Name
    requires { i < 10 }
    ensures { result ≡ rename_in i frame.now name }
{
    match holder_in(&frame.resources, name) {
        Some(k) => numbered_name(i, k),
        None => numbered_name(i, 0),
    }
}

/// The spot of frame `i` in the window.
pub(crate) fn renamed_spot(i: usize, frame: &Frame, spot: Spot) -> Spot
    requires { i < 10 }
    ensures { result ≡ renamed_spot (rename_in i frame.now) spot }
{
    Spot {
        name: rename_in(i, frame, spot.name),
        layer: spot.layer,
    }
}

/// The spots of frame `i` in the window.
pub(crate) fn renamed_spots(
    alloc: Global,
    i: usize,
    frame: &Frame,
    spots: &[Spot],
) -> Result<List<Spot>, NoMemory>
    requires { i < 10 }
    ensures { IfOk result (λ renamed. renamed ≡ map (renamed_spot (rename_in i frame.now)) spots.now) }
{
    let mut renamed = List::new(alloc);
    for spot in spots {
        renamed.push(renamed_spot(i, frame, *spot))?;
    }
    Ok(renamed)
}
