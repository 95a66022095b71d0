//! Where among what a window exports its frames' own exports stand, and what is left under persisting names.

ghost use Rattle.std.specs.Prelude.{◌≡◌, ◌≤◌, ◌<◌, ◌+◌, ◌*◌, ◌==◌, false, None, length, map, option_to_list};
ghost use Rattle.std.specs.List.{All, flat_map};
ghost use Rattle.std.specs.Option.{option_map_or};
ghost use Rattle.flight.specs.Internal.Units.{other_unit};
ghost use Rattle.flight.specs.Exported.{export_place, exports_in, persisted_export, last_unit, last_units, own_units, place_from, place_under, unit_under};
ghost use Rattle.frame.specs.Numbered.{numbered};
ghost use Rattle.frame.specs.Units.{units_from};
ghost use Rattle.law_window.specs.Declared.{unit_at};
ghost use Rattle.law_window.specs.Window.{others};

use crate::holders::holder_in;
use crate::limits::frames_of;
use base::Name;
use frame::{Resource, ValidFrame};

// How many units a frame exports.
fn export_count(good: &ValidFrame) -> u32
    ensures count { result ≡ length (numbered good.now).exports }
    ensures few { result ≤ 32 }
{
    good.exports().len() as u32
}

// How many units frames export.
#[tactic(auto, using(crate::proofs::Units::count_on, crate::proofs::Units::count_end))]
fn exports_in(frames: &[ValidFrame]) -> u32
    requires { length frames.now ≤ 8 }
    ensures count { result ≡ exports_in frames.now }
    ensures few { result ≤ 256 }
{
    let mut count = 0;
    for good in frames {
        count += export_count(good);
    }
    count
}

/// The place of a frame's export among what its window exports.
#[tactic(auto, using(crate::proofs::Units::begins_before, crate::proofs::Units::few_before, crate::proofs::Units::placed))]
pub(crate) fn export_place(frames: &[ValidFrame], depth: u32, frame: u32, k: u32) -> u32
    requires few { length frames.now ≤ 64 }
    requires deep { 1 ≤ depth }
    requires shallow { depth ≤ 8 }
    requires there { frame < length frames.now }
    requires small { k < 32 }
    ensures { result ≡ export_place frames.now depth frame k }
{
    let first = (frame / depth) * depth;
    exports_in(&frames[first as usize..frame as usize]) + k
}

// How many units stand before those of resource `k`.
#[tactic(auto, using(crate::proofs::Units::none_before, crate::proofs::Units::sum_within, crate::proofs::Units::units_on, crate::proofs::Units::units_within))]
fn unit_at(resources: &[Resource], k: usize) -> u32
    requires there { k < length resources.now }
    requires few { length (flat_map units_from resources.now) ≤ 256 }
    ensures unit { result ≡ unit_at resources.now k }
    ensures few { result ≤ 256 }
{
    let mut unit = 0;
    for i in 0..k {
        unit += resources[i].layers;
    }
    unit
}

// The unit that a frame whose units begin at `first` has under a name.
fn unit_under(first: u32, name: Name, good: &ValidFrame) -> Option<u32>
    requires { first ≤ 2048 }
    ensures { result ≡ unit_under first name good.now }
{
    let _few = good.unit_count();
    let resources = &good.frame().resources;
    match holder_in(resources, name) {
        Some(k) => Some(first + unit_at(resources, k)),
        None => None,
    }
}

// The last unit that frames have under a name.
#[tactic(auto, using(crate::proofs::Units::last_on, crate::proofs::Units::last_end))]
fn last_unit(frames: &[ValidFrame], name: Name) -> Option<u32>
    requires { length frames.now ≤ 8 }
    ensures { result ≡ last_unit 0 name None frames.now }
{
    let mut unit = None;
    let mut first = 0;
    for good in frames {
        unit = unit_under(first, name, good).or(unit);
        first += good.unit_count();
    }
    unit
}

// The place of a unit among exports of a frame whose units begin at `first`, where the places begin at `place`.
#[tactic(auto, using(crate::proofs::Units::place_on, crate::proofs::Units::place_found, crate::proofs::Units::place_end, crate::proofs::Units::small_at))]
fn place_in(exports: &[u32], first: u32, unit: u32, place: u32) -> Option<u32>
    requires few { length exports.now ≤ 32 }
    requires first { first ≤ 2048 }
    requires place { place ≤ 256 }
    requires within { All (λ x. x ≤ 256) exports.now }
    ensures { result ≡ place_from unit place (map (λ x. first + x) exports.now) }
{
    for (k, export) in exports.iter().enumerate() {
        if first + *export == unit {
            return Some(place + k as u32);
        }
    }
    None
}

// The place of a unit among the exports of a frame whose units begin at `first`, where the places begin at `place`.
#[tactic(auto, using(crate::proofs::Units::inside))]
fn place_of(good: &ValidFrame, first: u32, unit: u32, place: u32) -> Option<u32>
    requires first { first ≤ 2048 }
    requires place { place ≤ 256 }
    ensures { result ≡ place_from unit place (map (λ x. first + x) (numbered good.now).exports) }
{
    let _few = good.unit_count();
    place_in(good.exports(), first, unit, place)
}

// The place of a unit among the exports of the frames themselves.
#[tactic(auto, using(crate::proofs::Units::own_on, crate::proofs::Units::own_found, crate::proofs::Units::own_end))]
fn own_place(frames: &[ValidFrame], unit: u32) -> Option<u32>
    requires { length frames.now ≤ 8 }
    ensures { result ≡ place_from unit 0 (own_units 0 frames.now) }
{
    let mut first = 0;
    let mut place = 0;
    for good in frames {
        if let Some(found) = place_of(good, first, unit, place) {
            return Some(found);
        }
        first += good.unit_count();
        place += export_count(good);
    }
    None
}

// The last unit under a name, where the frames do not export it themselves.
fn other_unit(frames: &[ValidFrame], name: Name) -> Option<u32>
    requires { length frames.now ≤ 8 }
    ensures { result ≡ other_unit frames.now name }
{
    let unit = last_unit(frames, name)?;
    match own_place(frames, unit) {
        Some(_) => None,
        None => Some(unit),
    }
}

fn is_it(other: Option<u32>, unit: u32) -> bool
    ensures { result ≡ option_map_or (λ x. x == unit) other false }
{
    match other {
        Some(other) => other == unit,
        None => false,
    }
}

// How many there are, none or one.
fn counted(other: Option<u32>) -> u32
    ensures count { result ≡ length (option_to_list other) }
    ensures few { result ≤ 1 }
{
    match other {
        Some(_) => 1,
        None => 0,
    }
}

// The place of a unit among the last units under persisting names that the frames do not export themselves, where the places
// begin at `start`.
#[tactic(auto, using(crate::proofs::Units::other_on, crate::proofs::Units::other_found, crate::proofs::Units::others_end))]
fn other_place(frames: &[ValidFrame], persist: &[Name], unit: u32, start: u32) -> Option<u32>
    requires few { length frames.now ≤ 8 }
    requires names { length persist.now ≤ 16 }
    requires start { start ≤ 256 }
    ensures { result ≡ place_from unit start (others (own_units 0 frames.now) (last_units persist.now frames.now)) }
{
    let mut place = start;
    for name in persist {
        let other = other_unit(frames, *name);
        if is_it(other, unit) {
            return Some(place);
        }
        place += counted(other);
    }
    None
}

// The place of the last unit that frames have under a name, among what a window of these frames exports.
#[tactic(auto, using(crate::proofs::Units::own_first, crate::proofs::Units::then_others))]
fn place_under(frames: &[ValidFrame], persist: &[Name], name: Name) -> Option<u32>
    requires few { length frames.now ≤ 8 }
    requires names { length persist.now ≤ 16 }
    ensures { result ≡ place_under persist.now frames.now name }
{
    let unit = last_unit(frames, name)?;
    match own_place(frames, unit) {
        Some(place) => Some(place),
        None => other_place(frames, persist, unit, exports_in(frames)),
    }
}

/// The place of persisting name `k` among what window `w` exports.
pub(crate) fn persisted_export(
    frames: &[ValidFrame],
    persist: &[Name],
    depth: u32,
    w: u32,
    k: u32,
) -> Option<u32>
    requires few { length frames.now ≤ 64 }
    requires shallow { depth ≤ 8 }
    requires there { w * depth < length frames.now }
    requires names { length persist.now ≤ 16 }
    requires name { k < length persist.now }
    ensures { result ≡ persisted_export frames.now persist.now depth w k }
{
    place_under(frames_of(frames, depth, w), persist, persist[k as usize])
}
